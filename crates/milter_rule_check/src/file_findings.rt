//! What is said of a rule file as a whole.

use milter_filter_rules::Rules;
use milter_rules::{Notes, Span};
use milter_wire::{NoMemory, Options, Protocol, Stage};
use std::alloc::Global;
use std::str;

/// Says which stages no rule needs that a line `protocol` of the file has sent all the same.
pub(crate) fn say_stages(notes: &mut Notes<'_>, rules: &Rules) -> Result<(), NoMemory> {
    if !rules.is_protocol_stated() {
        return Ok(());
    }
    let options = rules.options();
    let needless = rules.least_wants(&[]).protocol.0
        & bits_of_stages(options)
        & !options.protocol.0;
    if needless == 0 {
        return Ok(());
    }
    let names = names_of(notes.alloc(), needless)?;
    let Ok(names) = str::from_utf8(names.as_slice()) else {
        return Ok(());
    };
    let end: &[u8] = if names.contains('|') {
        b" sent, which no rule needs; without it serve doesn't ask for them"
    } else {
        b" sent, which no rule needs; without it serve doesn't ask for it"
    };
    let spans = [
        Span::Plain(b"the line protocol has "),
        Span::List(names),
        Span::Plain(end),
    ];
    notes.say_hint(&spans)
}

/// The bit by which the stage isn't sent, or none.
fn bit_of(stage: Stage) -> u32 {
    match stage.not_sent() {
        Some(bit) => bit.0,
        None => 0,
    }
}

/// The bits by which stages of the version of the file aren't sent.
fn bits_of_stages(options: Options) -> u32 {
    Stage::ALL
        .iter()
        .filter(|stage| has_stage(options, **stage))
        .fold(0, |bits, stage| bits | bit_of(*stage))
}

/// The names of the stages that these bits leave out, joined by `|`.
fn names_of(alloc: Global, bits: u32) -> Result<Vec<u8>, NoMemory> {
    let mut names = Vec::new(alloc);
    for stage in &Stage::ALL {
        if bit_of(*stage) & bits != 0 {
            if !names.is_empty() {
                names.push(b'|')?;
            }
            names.extend_from_slice(stage.name())?;
        }
    }
    Ok(names)
}

/// The first version of the protocol in which the stage of DATA is sent.
const DATA_VERSION: u32 = 4;

/// Whether the version that a filter asks for has the stage.
pub(crate) fn has_stage(options: Options, stage: Stage) -> bool {
    stage != Stage::DataCmd || options.version >= DATA_VERSION
}

/// The bit, where there is one and it is among those of these options.
pub(crate) fn bit_among(options: Options, bit: Option<Protocol>) -> Option<Protocol> {
    let bit = bit?;
    if options.protocol.0 & bit.0 == 0 {
        return None;
    }
    Some(bit)
}

//! A stream of packets, which a filter's end takes that lets all mail go on, up to its fault. All replies are sent as
//! they come.
//!
//! The word is how many bytes a piece has. What is printed is the number of the fault and how many bytes are unread
//! then, and the same of a second call, with the whole stream; or that there is no fault. Where memory is refused to
//! both calls, the program is out of memory.

use anyhow::{Context, bail};
use milter_filter::{FilterCore, FilterFault, Pass};

/// Gives a filter's end the stream in pieces of this size, and answers the fault that it comes to.
fn fault_in(
    core: &mut FilterCore<'_, Pass>,
    stream: &[u8],
    size: usize,
) -> Result<(), FilterFault> {
    let mut rest = stream;
    for _ in 0..stream.len() {
        if rest.is_empty() {
            break;
        }
        let taken = core.feed(&rest[..size.min(rest.len())])?;
        rest = rest.get(taken..).unwrap_or(&[]);
        core.sent(core.pending().len());
    }
    Ok(())
}

/// What came of a stream, and how many bytes were unread then.
#[derive(Clone, Copy)]
struct Fed {
    answer: Result<(), FilterFault>,
    unread: usize,
}

/// Gives a filter's end the stream in pieces of this size, and answers what came of it.
fn feed(core: &mut FilterCore<'_, Pass>, stream: &[u8], size: usize) -> Fed {
    let answer = fault_in(core, stream, size);
    Fed {
        answer,
        unread: core.unread(),
    }
}

/// Gives a filter's end the stream in pieces of this size, and then whole.
fn feed_twice(core: FilterCore<'_, Pass>, stream: &[u8], size: usize) -> (Fed, Fed) {
    let mut core = core;
    let first = feed(&mut core, stream, size);
    let second = feed(&mut core, stream, stream.len());
    (first, second)
}

/// Prints what came of a stream, and how many bytes were unread then.
fn print_fault(rt: &HostRuntime, fed: Fed) -> anyhow::Result<()> {
    let unread = fed.unread;
    match fed.answer {
        Ok(()) => Ok(println!(rt; "no fault, {unread} unread")?),
        Err(fault) => Ok(println!(rt; "fault {}, {unread} unread", fault.number())?),
    }
}

/// Gives the input to a filter's end, and prints its fault twice.
pub fn print_faults(rt: &HostRuntime, words: &[String], input: &[u8]) -> anyhow::Result<()> {
    let [size] = words else {
        bail!("usage: milter_tests_driver faults SIZE");
    };
    let size = size.parse::<usize>().ok().context("SIZE is no number")?;
    let Ok(core) = FilterCore::new(rt.alloc(), &Pass) else {
        bail!("out of memory");
    };
    let (first, second) = feed_twice(core, input, size);
    if first.answer == Err(FilterFault::NoMemory) && second.answer == first.answer {
        bail!("out of memory");
    }
    print_fault(rt, first)?;
    print_fault(rt, second)
}

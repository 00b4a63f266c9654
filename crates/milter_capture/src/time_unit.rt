//! The units in which captures count time.

/// The nanoseconds of a second.
pub(crate) const SECOND: u64 = 1_000_000_000;

/// A unit of time: a part of a second.
#[derive(Clone, Copy, Debug, PartialEq, Eq)]
pub(crate) enum TimeUnit {
    /// A second divided by this power of ten.
    Decimal(u32),
    /// A second divided by this power of two.
    Binary(u32),
}

/// The highest bit of the byte that names a unit: whether the power is one of two.
const IS_BINARY: u8 = 0x80;

impl TimeUnit {
    /// The unit of an interface without an option that names one: a microsecond.
    pub(crate) const MICROSECOND: TimeUnit = TimeUnit::Decimal(6);

    /// The unit that this byte names, as the option `if_tsresol` has it.
    pub(crate) fn of(byte: u8) -> TimeUnit {
        if byte < IS_BINARY {
            TimeUnit::Decimal(u32::from(byte))
        } else {
            TimeUnit::Binary(u32::from(byte & !IS_BINARY))
        }
    }

    /// How many nanoseconds so many units are; the most that there can be, where they are more.
    pub(crate) fn nanoseconds(self, units: u64) -> u64 {
        let all = u128::from(units).saturating_mul(u128::from(SECOND));
        let number = match self {
            TimeUnit::Decimal(power) => {
                let parts = 10u128.checked_pow(power).unwrap_or(u128::MAX);
                all.checked_div(parts).unwrap_or(0)
            }
            TimeUnit::Binary(power) => all.checked_shr(power).unwrap_or(0),
        };
        u64::try_from(number).unwrap_or(u64::MAX)
    }
}

//! Lines that stand many times.

use std::alloc::{AllocError, AllocFailed, Global};

/// Why lines cannot stand many times.
#[derive(Clone, Copy, Debug)]
pub enum ExpandFault {
    /// Memory ran out.
    NoMemory,
    /// A repetition without its number, its end or a sum.
    Repeat,
    /// A number of a sum that does not fit.
    Number,
}

impl From<AllocError> for ExpandFault {
    fn from(_error: AllocError) -> ExpandFault {
        ExpandFault::NoMemory
    }
}

impl<T: Drop> From<AllocFailed<T>> for ExpandFault {
    fn from(_error: AllocFailed<T>) -> ExpandFault {
        ExpandFault::NoMemory
    }
}

/// A block, in which the lines between `repeat N` and `end` stand N times. In their copy i, from 0 on, `{A+B}` stands for A + B × i,
/// `{A+B:n}` for that number as an APDU of IEC 60870-5-104 spells it: modulo 32,768, in hexadecimal digits; `{A+B:m}` for it modulo
/// 32,768, and `{A+B:x}` for its lowest octet in hexadecimal digits.
///
/// # Errors
///
/// A repetition is not spelled so, or memory ran out.
pub fn expanded(alloc: Global, block: &str) -> Result<String, ExpandFault> {
    let mut all = String::new(alloc);
    let mut parts = block.split("\nrepeat ");
    all.push_str(parts.next().unwrap_or(""))?;
    for part in parts {
        let (times, rest) = part.split_once('\n').ok_or(ExpandFault::Repeat)?;
        let (copied, behind) = rest.split_once("\nend").ok_or(ExpandFault::Repeat)?;
        let times = times.parse::<u32>().map_err(|_| ExpandFault::Repeat)?;
        for i in 0..times {
            all.push('\n')?;
            push_copy(&mut all, copied, i)?;
        }
        all.push_str(behind)?;
    }
    Ok(all)
}

fn push_copy(all: &mut String, lines: &str, i: u32) -> Result<(), ExpandFault> {
    let mut pieces = lines.split('{');
    all.push_str(pieces.next().unwrap_or(""))?;
    for piece in pieces {
        let (formula, text) = piece.split_once('}').ok_or(ExpandFault::Repeat)?;
        push_number(all, formula, i)?;
        all.push_str(text)?;
    }
    Ok(())
}

fn push_number(all: &mut String, formula: &str, i: u32) -> Result<(), ExpandFault> {
    let (sum, form) = formula.split_once(':').unwrap_or((formula, ""));
    let (first, step) = sum.split_once('+').ok_or(ExpandFault::Repeat)?;
    let first = first.parse::<u32>().map_err(|_| ExpandFault::Number)?;
    let step = step.parse::<u32>().map_err(|_| ExpandFault::Number)?;
    let number = u64::from(step)
        .saturating_mul(u64::from(i))
        .saturating_add(u64::from(first));
    let spelled = spelled(*all.allocator(), form, number)?;
    all.push_str(&spelled)?;
    Ok(())
}

/// A number in the form of a sum.
fn spelled(alloc: Global, form: &str, number: u64) -> Result<String, ExpandFault> {
    let turned = number % 32_768;
    let octets = [(turned * 2 % 256) as u8, (turned * 2 / 256) as u8];
    let text = match form {
        "" => format!(in alloc; "{number}")?,
        "n" => format!(in alloc; "{:02x}{:02x}", octets[0], octets[1])?,
        "m" => format!(in alloc; "{turned}")?,
        "x" => format!(in alloc; "{:02x}", number % 256)?,
        _ => return Err(ExpandFault::Repeat),
    };
    Ok(text)
}

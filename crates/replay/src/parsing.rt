//! Lines of a trace: a call's name and its numbers in decimal, with one space between.
use model::Call;
use std::error::Error;
use std::fmt;
use std::str::{FromStr, Split};

/// A line of a trace, read as a call.
#[derive(Clone, Copy)]
pub struct TraceLine(pub Call<i64>);

/// A line that is no call.
#[derive(Clone, Copy, PartialEq, Eq, Debug)]
pub struct NoCall {}

impl fmt::Display for NoCall {
    fn fmt<W: fmt::Write>(&self, f: &mut fmt::Formatter<W>) -> fmt::Result {
        write!(f, "a line of a trace is no call")
    }
}

impl Error for NoCall {}

/// The next word, read as a number.
fn next_of<T: FromStr>(words: &mut Split<'_, char>) -> Result<T, NoCall>
where
    T::Err: Drop,
{
    let word = words.next().ok_or(NoCall {})?;
    word.parse::<T>().map_err(|_| NoCall {})
}

impl FromStr for TraceLine {
    type Err = NoCall;

    fn from_str(line: &str) -> Result<TraceLine, NoCall> {
        let mut words = line.split(' ');
        let name = words.next().ok_or(NoCall {})?;
        let call = match name {
            "takeover" => Call::Takeover {
                seat: next_of(&mut words)?,
            },
            "begin" => Call::Begin {
                seat: next_of(&mut words)?,
            },
            "write" => Call::Write {
                id: next_of(&mut words)?,
                key: next_of(&mut words)?,
                value: next_of(&mut words)?,
            },
            "read" => Call::Read {
                id: next_of(&mut words)?,
                key: next_of(&mut words)?,
            },
            "validate" => Call::Validate {
                id: next_of(&mut words)?,
                seat: next_of(&mut words)?,
            },
            "settle" => Call::Settle {
                id: next_of(&mut words)?,
            },
            "stamp" => Call::Stamp {
                id: next_of(&mut words)?,
            },
            "abandon" => Call::Abandon {
                id: next_of(&mut words)?,
            },
            "bury" => Call::Bury {
                id: next_of(&mut words)?,
            },
            "raise" => Call::Raise {
                floor: next_of(&mut words)?,
            },
            "sweep" => Call::Sweep {
                key: next_of(&mut words)?,
            },
            "fast-read" => Call::FastRead {
                key: next_of(&mut words)?,
            },
            "fast-change" => Call::FastChange {
                seen: next_of(&mut words)?,
                key: next_of(&mut words)?,
                value: next_of(&mut words)?,
            },
            "fast-write" => Call::FastWrite {
                key: next_of(&mut words)?,
                value: next_of(&mut words)?,
            },
            _ => return Err(NoCall {}),
        };
        match words.next() {
            Some(_) => Err(NoCall {}),
            None => Ok(TraceLine(call)),
        }
    }
}

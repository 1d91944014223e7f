//! Calls and answers as lines of text: a call's name and its numbers in decimal, with one space between; "ok" and the answer, or "no" with a refusal's number
//! and place.
use crate::call::{Answer, Call};
use crate::words::PriceCard;
use std::fmt;

impl fmt::Display for PriceCard {
    fn fmt<W: fmt::Write>(&self, f: &mut fmt::Formatter<W>) -> fmt::Result {
        let cents = self.cents;
        let tax_class = self.tax_class;
        let first_day = self.first_day;
        write!(f, "{cents}/{tax_class}/{first_day}")
    }
}

impl<V: fmt::Display> fmt::Display for Call<V> {
    fn fmt<W: fmt::Write>(&self, f: &mut fmt::Formatter<W>) -> fmt::Result {
        match self {
            Call::Takeover { seat } => write!(f, "takeover {seat}"),
            Call::Begin { seat } => write!(f, "begin {seat}"),
            Call::Write { id, key, value } => write!(f, "write {id} {key} {value}"),
            Call::Read { id, key } => write!(f, "read {id} {key}"),
            Call::Validate { id, seat } => write!(f, "validate {id} {seat}"),
            Call::Settle { id } => write!(f, "settle {id}"),
            Call::Stamp { id } => write!(f, "stamp {id}"),
            Call::Abandon { id } => write!(f, "abandon {id}"),
            Call::Bury { id } => write!(f, "bury {id}"),
            Call::Raise { floor } => write!(f, "raise {floor}"),
            Call::Sweep { key } => write!(f, "sweep {key}"),
            Call::FastRead { key } => write!(f, "fast-read {key}"),
            Call::FastChange { seen, key, value } => write!(f, "fast-change {seen} {key} {value}"),
            Call::FastWrite { key, value } => write!(f, "fast-write {key} {value}"),
        }
    }
}

impl<V: fmt::Display> fmt::Display for Answer<V> {
    fn fmt<W: fmt::Write>(&self, f: &mut fmt::Formatter<W>) -> fmt::Result {
        match self {
            Answer::Denied(refusal) => {
                let number = refusal.number();
                let place = refusal.place();
                write!(f, "no {number} {place}")
            }
            Answer::Number(number) => write!(f, "ok {number}"),
            Answer::Value(Some(value)) => write!(f, "ok {value}"),
            Answer::Value(None) => write!(f, "ok none"),
            Answer::Newest {
                number,
                value: Some(value),
            } => write!(f, "ok {value} {number}"),
            Answer::Newest {
                number,
                value: None,
            } => write!(f, "ok none {number}"),
        }
    }
}

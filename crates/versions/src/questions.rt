//! Questions on the records of a key. A loop goes down its versions, the highest first.
ghost use Rattle.std.specs.Prelude.{◌≡◌, max, ◌||◌, nat_lt};
ghost use Rattle.model.specs.Records.{record_at, newest};
ghost use Rattle.model.specs.Versions.{is_pending, has_pending, greater_of, greatest_stamped, number_below, greatest_below};
ghost use Rattle.versions.specs.Meaning.{greatest_of};
ghost use Rattle.versions.specs.Down.{older};

use model::{Record, Stamped};
use version_store::VersionStore;

/// The key's record at the version.
pub fn record_at<S: VersionStore>(store: &S, key: u64, version: u64) -> Option<Record<S::Value>>
    ensures { record_at (S.VersionStore.records store.now) key version ≡ result }
{
    store
        .newest(key, version)
        .filter(|found| found.version == version)
}

/// The key's record of greatest version below a version.
pub fn older<S: VersionStore>(store: &S, key: u64, version: u64) -> Option<Record<S::Value>>
    ensures { older key version (S.VersionStore.records store.now) ≡ result }
{
    store.newest(key, version.checked_sub(1)?)
}

/// What the records of a key show: whether one is pending, and the greatest stamped number with its value.
#[derive(Clone, Copy, Drop)]
pub struct KeySummary<V> {
    pub pending: bool,
    pub greatest: Option<Stamped<V>>,
}

impl<V: Copy> KeySummary<V> {
    /// Whether the greatest stamped number is above a number.
    pub fn is_above(&self, number: u64) -> bool
        ensures { result ≡ nat_lt number (greatest_of self.now).0 }
    {
        self.greatest.is_some_and(|stamped| stamped.number > number)
    }

    /// The summary of the records seen before and this one.
    fn with(self, seen: &Record<V>) -> KeySummary<V>
        ensures pending { result.pending ≡ (self.pending || is_pending seen.now.number) }
        ensures greatest { greatest_of result ≡ greater_of seen.now.number seen.now.value (greatest_of self) }
    {
        let KeySummary { pending, greatest } = self;
        let Some(number) = seen.number else {
            return KeySummary {
                pending: true,
                greatest,
            };
        };
        if greatest.is_some_and(|so_far| number < so_far.number) {
            return KeySummary { pending, greatest };
        }
        let value = seen.value;
        KeySummary {
            pending,
            greatest: Some(Stamped { number, value }),
        }
    }
}

/// The summary of a key's records.
pub fn summary<S: VersionStore>(store: &S, key: u64) -> KeySummary<S::Value>
    ensures pending { result.pending ≡ has_pending key (S.VersionStore.records store.now) }
    ensures greatest { greatest_of result ≡ greatest_stamped key (S.VersionStore.records store.now) }
{
    let mut seen = KeySummary {
        pending: false,
        greatest: None,
    };
    let mut next = store.newest(key, u64::MAX);
    while let Some(current) = next {
        seen = seen.with(&current);
        next = older(store, key, current.version);
    }
    seen
}

/// The number, if it is there and below the floor; else 0.
fn number_below(floor: u64, number: Option<u64>) -> u64
    ensures { result ≡ number_below floor number }
{
    number.filter(|n| *n < floor).unwrap_or(0)
}

/// The key's greatest stamped number below the floor, or 0.
pub fn greatest_below<S: VersionStore>(store: &S, key: u64, floor: u64) -> u64
    ensures { result ≡ greatest_below key floor (S.VersionStore.records store.now) }
{
    let mut greatest = 0;
    let mut next = store.newest(key, u64::MAX);
    while let Some(current) = next {
        greatest = number_below(floor, current.number).max(greatest);
        next = older(store, key, current.version);
    }
    greatest
}

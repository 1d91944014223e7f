//! The calls that are measured.
use model::Record;
use std::io;
use std::ops::Range;
use std::time::Instant;
use version_store::VersionStore;

/// Nanoseconds per call, and a checksum of all answers.
#[derive(Clone, Copy, Default)]
pub struct Measured {
    pub newest: u64,
    pub put_new: u64,
    pub put_over: u64,
    pub mark: u64,
    pub dropped: u64,
    pub sum: u64,
}

impl Measured {
    /// The times of so many calls of each kind, as times of one.
    fn per_call(&self, calls: u64) -> Measured {
        let calls = calls.max(1);
        Measured {
            newest: self.newest / calls,
            put_new: self.put_new / calls,
            put_over: self.put_over / calls,
            mark: self.mark / calls,
            dropped: self.dropped / calls,
            sum: self.sum,
        }
    }
}

/// The i-th of the records: four versions of each key, and keys of all classes.
fn item(i: u64) -> Record<i64> {
    Record {
        key: (i / 4).wrapping_mul(37),
        version: i % 4 * 1048576,
        number: None,
        value: (i % 1000) as i64,
    }
}

/// The i-th of n numbers in a scattered order. Sizes are powers of two, so each comes once.
fn scattered(i: u64, n: u64) -> u64 {
    if n == 0 {
        0
    } else {
        i.wrapping_mul(2654435761) % n
    }
}

/// How many of those of n items in scattered order, from one place to another, the call answers yes to.
fn count_of<F: FnMut(&Record<i64>) -> bool>(places: Range<u64>, n: u64, mut call: F) -> u64
    requires { F.IsAlwaysCallable call }
{
    let mut done: u64 = 0;
    for i in places {
        if call(&item(scattered(i, n))) {
            done = done.wrapping_add(1);
        }
    }
    done
}

fn put_all<S: VersionStore<Value = i64>>(store: &mut S, places: Range<u64>, n: u64) -> u64 {
    count_of(places, n, |wanted| store.put(wanted).is_ok())
}

fn drop_all<S: VersionStore<Value = i64>>(store: &mut S, places: Range<u64>, n: u64) -> u64 {
    count_of(
        places,
        n,
        |wanted| store.drop_record(wanted.key, wanted.version),
    )
}

/// Marks each record with a number of its own.
fn mark_all<S: VersionStore<Value = i64>>(store: &mut S, n: u64) -> u64 {
    let mut number: u64 = 0;
    count_of(0..n, n, |wanted| {
        let marked = store.mark(wanted.key, wanted.version, number);
        number = number.wrapping_add(1);
        marked
    })
}

/// A checksum of all that is found.
fn find_all<S: VersionStore<Value = i64>>(store: &S, n: u64) -> u64 {
    (0..n)
        .filter_map(|i| {
            let wanted = item(scattered(i, n));
            store.newest(wanted.key, wanted.version)
        })
        .fold(0u64, |sum, found| {
            sum.wrapping_add(found.key ^ found.version).rotate_left(1)
        })
}

/// A store with n places, and what its calls took so far.
#[derive(Drop)]
struct Bench<'s, 'r, S> {
    store: &'s mut S,
    n: u64,
    clock: Option<&'r HostRuntime>,
    total: Measured,
}

impl<S: VersionStore<Value = i64>> Bench<'_, '_, S> {
    /// Adds the call's answer to the checksum, and gives the nanoseconds that it took: 0 with no clock.
    fn timed<F: FnOnce(&mut S) -> u64>(&mut self, call: F) -> io::Result<u64>
        requires { F.IsAlwaysCallable call }
    {
        let start = match self.clock {
            Some(rt) => Some(Instant::now(rt)?),
            None => None,
        };
        let answer = call(self.store);
        self.total.sum = self.total.sum.wrapping_add(answer);
        match (start, self.clock) {
            (Some(start), Some(rt)) => {
                let took = start.elapsed(rt)?.as_nanos();
                Ok(u64::try_from(took).unwrap_or(u64::MAX))
            }
            _ => Ok(0),
        }
    }

    /// Drops 32 records and puts them again, until each of n had its turn: the store stays all but full.
    fn turn_over(&mut self) -> io::Result<()> {
        let n = self.n;
        for from in (0..n).step_by(32) {
            let to = n.min(from.saturating_add(32));
            let dropped = self.timed(|store| drop_all(store, from..to, n))?;
            let put = self.timed(|store| put_all(store, from..to, n))?;
            self.total.dropped = self.total.dropped.wrapping_add(dropped);
            self.total.put_new = self.total.put_new.wrapping_add(put);
        }
        Ok(())
    }

    /// Every call once for each record of a full store.
    fn round(&mut self) -> io::Result<()> {
        let n = self.n;
        let newest = self.timed(|store| find_all(store, n))?;
        let put_over = self.timed(|store| put_all(store, 0..n, n))?;
        let mark = self.timed(|store| mark_all(store, n))?;
        self.total.newest = self.total.newest.wrapping_add(newest);
        self.total.put_over = self.total.put_over.wrapping_add(put_over);
        self.total.mark = self.total.mark.wrapping_add(mark);
        self.turn_over()
    }
}

/// Fills the store and runs the calls: so many rounds by the clock, or one with no clock.
pub fn measure<S: VersionStore<Value = i64>>(
    rt: &HostRuntime,
    store: &mut S,
    rounds: Option<u64>,
) -> io::Result<Measured> {
    let n = store.capacity() as u64;
    let sum = put_all(store, 0..n, n);
    let mut bench = Bench {
        store,
        n,
        clock: rounds.map(|_| rt),
        total: Measured {
            sum,
            ..Measured::default()
        },
    };
    let rounds = rounds.unwrap_or(1);
    for _ in 0..rounds {
        bench.round()?;
    }
    Ok(bench.total.per_call(n.wrapping_mul(rounds)))
}

//! The runs and their openings.
use model::Opening;

#[derive(Clone, Copy)]
pub struct Run {
    pub name: &'static str,
    pub opening: Opening,
}

pub const LARGE: Opening = Opening {
    first: 1,
    span: 4,
    rows: 64,
    conflicts0: 64,
    conflicts1: 64,
    records: 256,
    entries: 64,
};

const TIGHT1: Opening = Opening {
    first: 1,
    span: 2,
    rows: 3,
    conflicts0: 2,
    conflicts1: 2,
    records: 8,
    entries: 2,
};

const TIGHT2: Opening = Opening {
    first: 9,
    span: 1,
    rows: 4,
    conflicts0: 1,
    conflicts1: 1,
    records: 6,
    entries: 1,
};

const TIGHT3: Opening = Opening {
    first: 1,
    span: 3,
    rows: 12,
    conflicts0: 3,
    conflicts1: 3,
    records: 16,
    entries: 3,
};

const LAST_STEPS: Opening = Opening {
    first: 8796093022202,
    span: 4,
    rows: 64,
    conflicts0: 64,
    conflicts1: 64,
    records: 256,
    entries: 64,
};

pub const RUNS: [Run; 11] = [
    Run {
        name: "run1",
        opening: LARGE,
    },
    Run {
        name: "run2",
        opening: LARGE,
    },
    Run {
        name: "run3",
        opening: LARGE,
    },
    Run {
        name: "run4",
        opening: LARGE,
    },
    Run {
        name: "run5",
        opening: LARGE,
    },
    Run {
        name: "run6",
        opening: LARGE,
    },
    Run {
        name: "many_keys",
        opening: LARGE,
    },
    Run {
        name: "tight1",
        opening: TIGHT1,
    },
    Run {
        name: "tight2",
        opening: TIGHT2,
    },
    Run {
        name: "tight3",
        opening: TIGHT3,
    },
    Run {
        name: "last_steps",
        opening: LAST_STEPS,
    },
];

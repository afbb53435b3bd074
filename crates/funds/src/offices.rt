// The offices, the funds and their records.
use terms::bounded::Cells;

pub const OFFICES: usize = 6;

pub const FUNDS: usize = 3;

pub const CELLS: usize = 16;

#[derive(Clone, Copy)]
pub struct Office {
    pub name: &'static str,
    // how much of each fund goes into its symbol
    row: [u8; FUNDS],
}

pub const ALL_OFFICES: [Office; OFFICES] = [
    Office {
        name: "Seoul",
        row: [1, 0, 0],
    },
    Office {
        name: "Mumbai",
        row: [0, 1, 0],
    },
    Office {
        name: "Dublin",
        row: [0, 0, 1],
    },
    Office {
        name: "London",
        row: [1, 1, 1],
    },
    Office {
        name: "Oakland",
        row: [1, 2, 1],
    },
    Office {
        name: "Oregon",
        row: [1, 2, 4],
    },
];

#[derive(Clone, Copy)]
pub struct Fund {
    pub name: &'static str,
    bytes: &'static [u8; CELLS],
}

// The funds and their records: the fund's mark, its price and the currency, in sixteen cells.
pub const ALL_FUNDS: [Fund; FUNDS] = [
    Fund {
        name: "equities",
        bytes: b"EQ    104.27 EUR",
    },
    BONDS,
    Fund {
        name: "property",
        bytes: b"PR    231.08 EUR",
    },
];

pub const BONDS: Fund = Fund {
    name: "bonds",
    bytes: b"BD     98.51 EUR",
};

// The offices that are still in reach in the story.
pub const REACHED: [usize; 3] = [3, 4, 5];

impl Fund {
    pub fn record(&self) -> Cells {
        let bytes = self.bytes;
        Cells::from_slice(0, bytes).unwrap()
    }
}

// The offices' rows.
pub fn all_rows() -> [[u8; FUNDS]; OFFICES] {
    ALL_OFFICES.map(|office| office.row)
}

pub fn all_records() -> [Cells; FUNDS] {
    ALL_FUNDS.map(|fund| fund.record())
}

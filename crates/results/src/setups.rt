// How long the tables and the line buffer of a program are, and how many steps it allows a job.
#[derive(Clone, Copy)]
pub struct Setup {
    pub tree: usize,
    pub types: usize,
    pub scope: usize,
    pub cells: usize,
    pub frames: usize,
    pub allowance: u32,
    pub buffer: usize,
}

impl Setup {
    // What the program `result_panel` runs with.
    pub const PANEL: Setup = Setup {
        tree: 2048,
        types: 2048,
        scope: 2048,
        cells: 2048,
        frames: 2048,
        allowance: 1_000_000,
        buffer: 65_536,
    };
}

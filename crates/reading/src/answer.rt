// What is answered.

// A height in thousandths of a degree, and how far off the exact one is at most.
#[derive(Clone, Copy)]
pub struct Near {
    pub height: f64,
    pub error: f64,
}

// A body against a line: seen, with how many thousandths of a degree it is above the line; or hidden, below it. The project's users asked for these two names, so it is no Option.
#[derive(Clone, Copy)]
pub enum Sighting {
    Seen(f64),
    Hidden,
}

// A tick of a file: its number, the height in it, times 2^30, and whether it is the first tick of its span.
#[derive(Clone, Copy)]
pub struct Moment {
    pub tick: u64,
    pub height: i64,
    pub first: bool,
}

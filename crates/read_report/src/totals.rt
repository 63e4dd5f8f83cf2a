// The report: the sixty-four, and the totals beside them.
#[derive(Clone, Copy, Debug, Default, PartialEq, Eq)]
pub struct Totals {
    // Lines that unfold, the reversed ones among them.
    pub records: u64,
    pub directives: u64,
    pub comments: u64,
    // Records whose start lies above their end.
    pub reversed: u64,
    // The lengths of all other records, added up.
    pub sum: u64,
    // Lines that unfolding refuses: by 24, 1, 2, 17, 3, 4 and 5.
    pub refused_too_long: u64,
    pub refused_columns: u64,
    pub refused_position: u64,
    pub refused_score: u64,
    pub refused_strand: u64,
    pub refused_phase: u64,
    pub refused_attribute: u64,
}

// The totals are a struct of their own: they go from line to line by value, and the sixty-four are not to be copied for each line.
#[derive(Clone, Copy, Debug, PartialEq, Eq)]
pub struct Report {
    // How many lengths lie in each power of two: `lengths[i]` counts those from 2^i on, before 2^(i + 1).
    pub lengths: [u64; 64],
    pub totals: Totals,
}

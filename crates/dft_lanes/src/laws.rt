ghost use Rattle.dft_lanes.specs.Laws.{HighestIsLast, ParityIsSum, SumIsByBits};

/// The words that two rows sum to are a row, the sum of both bit by bit.
pub fn sum_is_by_bits()
    ensures { SumIsByBits }
{}

/// The greatest place of a row with bit 1 is the last column of its set.
pub fn highest_is_last()
    ensures { HighestIsLast }
{}

/// The parity of what two rows have in common is the sum of the one's bits over the other's set.
pub fn parity_is_sum()
    ensures { ParityIsSum }
{}

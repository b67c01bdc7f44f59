ghost use Rattle.std.specs.Prelude.{◌≡◌};
ghost use Rattle.hash_lanes.specs.Lanes.{vectors_of};

use std::simd::u32x4;

/// One word of four values.
#[derive(Clone, Copy)]
pub(crate) struct Row {
    pub(crate) lanes: u32x4,
}

/// The vectors of eight rows.
#[inline(always)]
pub(crate) fn vectors(rows: &[Row; 8]) -> [u32x4; 8]
    ensures { result ≡ vectors_of rows.now }
{
    [
        rows[0].lanes,
        rows[1].lanes,
        rows[2].lanes,
        rows[3].lanes,
        rows[4].lanes,
        rows[5].lanes,
        rows[6].lanes,
        rows[7].lanes,
    ]
}

/// Eight rows of these vectors.
#[inline(always)]
pub(crate) fn rows(vectors: &[u32x4; 8]) -> [Row; 8]
    ensures { vectors_of result ≡ vectors.now }
{
    [
        Row { lanes: vectors[0] },
        Row { lanes: vectors[1] },
        Row { lanes: vectors[2] },
        Row { lanes: vectors[3] },
        Row { lanes: vectors[4] },
        Row { lanes: vectors[5] },
        Row { lanes: vectors[6] },
        Row { lanes: vectors[7] },
    ]
}

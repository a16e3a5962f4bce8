//! The units of a dimension.
ghost use Rattle.std.specs.Prelude.{◌≡◌, ◌≤◌, IfSome};
ghost use Rattle.tex_sizes.specs.Sizes.{ratio_in, unit_lengths};

/// The ratio of a unit to the point.
#[derive(Clone, Copy)]
pub(crate) struct Ratio {
    pub over: u32,
    pub under: u32,
}

/// Returns the length of the unit of this name in points, or `None` if the name is `sp` or isn't that of a
/// unit.
pub(crate) fn unit_ratio(unit: &[u8]) -> Option<Ratio>
    ensures value { result ≡ ratio_in unit_lengths unit.now }
    ensures range { IfSome result (λ r. (1 ≤ r.under) × (r.under ≤ r.over) × (r.over ≤ 14856)) }
{
    let (over, under) = match unit {
        b"pt" => (1, 1),
        b"in" => (7227, 100),
        b"pc" => (12, 1),
        b"cm" => (7227, 254),
        b"mm" => (7227, 2540),
        b"bp" => (7227, 7200),
        b"dd" => (1238, 1157),
        b"cc" => (14856, 1157),
        _ => return None,
    };
    Some(Ratio { over, under })
}

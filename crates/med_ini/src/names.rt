// An option by its section and key.
ghost use Rattle.std.specs.Prelude.{◌≡◌, map};
ghost use Rattle.std.specs.Char.{to_ascii_lowercase};
ghost use Rattle.std.specs.Cmp.Lexicographic.{slice_cmp};
ghost use Rattle.std.specs.Ordering.{nat_cmp};

use std::cmp::Ordering;

/// The names of an option. They are in the order of their sections, and in a section in that of
/// their keys in lower case.
#[derive(Clone, Copy)]
pub(crate) struct Name<'a> {
    pub(crate) section: &'a str,
    pub(crate) key: &'a str,
}

// The order of two texts in lower case.
fn lower_cmp(a: &[u8], b: &[u8]) -> Ordering
    ensures { result ≡ slice_cmp nat_cmp (map to_ascii_lowercase a.now)
        (map to_ascii_lowercase b.now) }
{
    let mut left = a;
    let mut right = b;
    'bytes: while let [x, xs @ ..] = left {
        let [y, ys @ ..] = right else {
            return Ordering::Greater;
        };
        let order = x.to_ascii_lowercase().cmp(&y.to_ascii_lowercase());
        if order.is_ne() {
            return order;
        }
        left = xs;
        right = ys;
    }
    if right.is_empty() {
        Ordering::Equal
    } else {
        Ordering::Less
    }
}

impl<'a> PartialEq for Name<'a> {
    ghost use Rattle.std.specs.Cmp.{eq_by_cmp_equiv, partial_equiv_from_equiv};
    ghost use Rattle.med_ini.specs.NameOrder.{name_eq, name_total};

    ghost eq = { name_eq };

    ghost laws = { partial_equiv_from_equiv (eq_by_cmp_equiv name_total) };

    fn eq(&self, other: &Name<'a>) -> bool {
        self.cmp(other).is_eq()
    }
}

impl<'a> Eq for Name<'a> {
    ghost use Rattle.std.specs.Cmp.{eq_by_cmp_equiv};
    ghost use Rattle.med_ini.specs.NameOrder.{name_total};

    ghost laws = { eq_by_cmp_equiv name_total };
}

impl<'a> PartialOrd for Name<'a> {
    ghost use Rattle.std.specs.Cmp.{partial_order_from_total};
    ghost use Rattle.med_ini.specs.NameOrder.{name_partial_cmp, name_total};

    ghost partial_cmp = { name_partial_cmp };

    ghost laws = { partial_order_from_total name_total };

    fn partial_cmp(&self, other: &Name<'a>) -> Option<Ordering> {
        Some(self.cmp(other))
    }
}

impl<'a> Ord for Name<'a> {
    ghost use Rattle.std.specs.Prelude.{refl};
    ghost use Rattle.med_ini.specs.NameOrder.{name_cmp, name_total};

    ghost cmp = { name_cmp };

    ghost total = { name_total };

    ghost matches_partial_cmp = { λ _ _. refl };

    ghost matches_eq = { λ _ _. refl };

    fn cmp(&self, other: &Name<'a>) -> Ordering {
        let section = self.section.cmp(other.section);
        section.then(lower_cmp(self.key.as_bytes(), other.key.as_bytes()))
    }
}

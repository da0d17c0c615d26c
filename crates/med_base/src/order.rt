// Names and paths in the order of their bytes.
use crate::{BackupName, Fqdn, ObjPath};
use std::cmp::Ordering;

impl PartialEq for Fqdn {
    ghost use Rattle.std.specs.Cmp.{eq_by_cmp_equiv, partial_equiv_from_equiv};
    ghost use Rattle.std.specs.Cmp.Lexicographic.{nat_list_cmp_total};
    ghost use Rattle.med_base.specs.NameOrder.{name_eq};

    ghost eq = { name_eq };

    ghost laws = { partial_equiv_from_equiv (eq_by_cmp_equiv nat_list_cmp_total) };

    fn eq(&self, other: &Fqdn) -> bool {
        self.cmp(other).is_eq()
    }
}

impl Eq for Fqdn {
    ghost use Rattle.std.specs.Cmp.{eq_by_cmp_equiv};
    ghost use Rattle.std.specs.Cmp.Lexicographic.{nat_list_cmp_total};

    ghost laws = { eq_by_cmp_equiv nat_list_cmp_total };
}

impl PartialOrd for Fqdn {
    ghost use Rattle.std.specs.Cmp.{partial_order_from_total};
    ghost use Rattle.std.specs.Cmp.Lexicographic.{nat_list_cmp_total};
    ghost use Rattle.med_base.specs.NameOrder.{name_partial_cmp};

    ghost partial_cmp = { name_partial_cmp };

    ghost laws = { partial_order_from_total nat_list_cmp_total };

    fn partial_cmp(&self, other: &Fqdn) -> Option<Ordering> {
        Some(self.cmp(other))
    }
}

impl Ord for Fqdn {
    ghost use Rattle.std.specs.Prelude.{refl};
    ghost use Rattle.std.specs.Cmp.Lexicographic.{nat_list_cmp_total};
    ghost use Rattle.med_base.specs.NameOrder.{name_cmp};

    ghost cmp = { name_cmp };

    ghost total = { nat_list_cmp_total };

    ghost matches_partial_cmp = { λ _ _. refl };

    ghost matches_eq = { λ _ _. refl };

    fn cmp(&self, other: &Fqdn) -> Ordering {
        self.as_str().cmp(other.as_str())
    }
}

impl PartialEq for BackupName {
    ghost use Rattle.std.specs.Cmp.{eq_by_cmp_equiv, partial_equiv_from_equiv};
    ghost use Rattle.std.specs.Cmp.Lexicographic.{nat_list_cmp_total};
    ghost use Rattle.med_base.specs.NameOrder.{name_eq};

    ghost eq = { name_eq };

    ghost laws = { partial_equiv_from_equiv (eq_by_cmp_equiv nat_list_cmp_total) };

    fn eq(&self, other: &BackupName) -> bool {
        self.cmp(other).is_eq()
    }
}

impl Eq for BackupName {
    ghost use Rattle.std.specs.Cmp.{eq_by_cmp_equiv};
    ghost use Rattle.std.specs.Cmp.Lexicographic.{nat_list_cmp_total};

    ghost laws = { eq_by_cmp_equiv nat_list_cmp_total };
}

impl PartialOrd for BackupName {
    ghost use Rattle.std.specs.Cmp.{partial_order_from_total};
    ghost use Rattle.std.specs.Cmp.Lexicographic.{nat_list_cmp_total};
    ghost use Rattle.med_base.specs.NameOrder.{name_partial_cmp};

    ghost partial_cmp = { name_partial_cmp };

    ghost laws = { partial_order_from_total nat_list_cmp_total };

    fn partial_cmp(&self, other: &BackupName) -> Option<Ordering> {
        Some(self.cmp(other))
    }
}

impl Ord for BackupName {
    ghost use Rattle.std.specs.Prelude.{refl};
    ghost use Rattle.std.specs.Cmp.Lexicographic.{nat_list_cmp_total};
    ghost use Rattle.med_base.specs.NameOrder.{name_cmp};

    ghost cmp = { name_cmp };

    ghost total = { nat_list_cmp_total };

    ghost matches_partial_cmp = { λ _ _. refl };

    ghost matches_eq = { λ _ _. refl };

    fn cmp(&self, other: &BackupName) -> Ordering {
        self.as_str().cmp(other.as_str())
    }
}

impl PartialEq for ObjPath {
    ghost use Rattle.std.specs.Cmp.{eq_by_cmp_equiv, partial_equiv_from_equiv};
    ghost use Rattle.std.specs.Cmp.Lexicographic.{nat_list_cmp_total};
    ghost use Rattle.med_base.specs.NameOrder.{name_eq};

    ghost eq = { name_eq };

    ghost laws = { partial_equiv_from_equiv (eq_by_cmp_equiv nat_list_cmp_total) };

    fn eq(&self, other: &ObjPath) -> bool {
        self.cmp(other).is_eq()
    }
}

impl Eq for ObjPath {
    ghost use Rattle.std.specs.Cmp.{eq_by_cmp_equiv};
    ghost use Rattle.std.specs.Cmp.Lexicographic.{nat_list_cmp_total};

    ghost laws = { eq_by_cmp_equiv nat_list_cmp_total };
}

impl PartialOrd for ObjPath {
    ghost use Rattle.std.specs.Cmp.{partial_order_from_total};
    ghost use Rattle.std.specs.Cmp.Lexicographic.{nat_list_cmp_total};
    ghost use Rattle.med_base.specs.NameOrder.{name_partial_cmp};

    ghost partial_cmp = { name_partial_cmp };

    ghost laws = { partial_order_from_total nat_list_cmp_total };

    fn partial_cmp(&self, other: &ObjPath) -> Option<Ordering> {
        Some(self.cmp(other))
    }
}

impl Ord for ObjPath {
    ghost use Rattle.std.specs.Prelude.{refl};
    ghost use Rattle.std.specs.Cmp.Lexicographic.{nat_list_cmp_total};
    ghost use Rattle.med_base.specs.NameOrder.{name_cmp};

    ghost cmp = { name_cmp };

    ghost total = { nat_list_cmp_total };

    ghost matches_partial_cmp = { λ _ _. refl };

    ghost matches_eq = { λ _ _. refl };

    fn cmp(&self, other: &ObjPath) -> Ordering {
        self.as_str().cmp(other.as_str())
    }
}

// What the grammar says of every text.
ghost use Rattle.med_ini.specs.Grammar.{HasOneReading, HasOneFault, FaultsAreNone};

/// A law: bytes have at most one list of entries, at most one first fault, and never both.
pub fn one_reading()
    ensures one { HasOneReading }
    ensures one_cause { HasOneFault }
    ensures refused { FaultsAreNone }
{}

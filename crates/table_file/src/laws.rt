//! Laws over the spelling of tables, and where octets stop being one. The functions do nothing: each contract is the law.

ghost use Rattle.std.specs.Prelude.{◌≡◌, ℕ, List};
ghost use Rattle.table_file.specs.Stops.{StopsAt};
ghost use Rattle.table_file.specs.Table.{TableParts, IsTable};
ghost use Rattle.table_file.specs.TableSpelling.{Spells, SpellsOld};

/// No two lists of octets spell one table.
pub fn table_has_one_spelling()
    ensures { (table : TableParts) (octets others : List ℕ) → Spells table octets → Spells table others
        → octets ≡ others }
{}

/// No list of octets spells two tables.
pub fn octets_spell_one_table()
    ensures { (table other : TableParts) (octets : List ℕ) → IsTable table → IsTable other → Spells table octets
        → Spells other octets → table ≡ other }
{}

/// No list of octets of version 1 spells two tables.
pub fn old_octets_spell_one_table()
    ensures { (table other : TableParts) (octets : List ℕ) → IsTable table → IsTable other → SpellsOld table octets
        → SpellsOld other octets → table ≡ other }
{}

/// No list of octets is of both versions.
pub fn octets_are_of_one_version()
    ensures { (table other : TableParts) (octets : List ℕ) → Spells table octets → SpellsOld other octets → ⊥ }
{}

/// Octets stop being those of a table file at one place at most.
pub fn stop_is_one()
    ensures { (octets : List ℕ) (at other : ℕ) → StopsAt octets at → StopsAt octets other → at ≡ other }
{}

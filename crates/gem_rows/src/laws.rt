//! Laws of the numbers, for proofs to cite. Each function is empty: what it ensures holds of the definitions.

ghost use Rattle.std.specs.Prelude.{◌≡◌, ℕ, ◌==◌, ◌≤◌, ◌&&◌, true, Some, is_some, IfSome, IsSome};
ghost use Rattle.std.specs.List.{list_any, list_all};
ghost use Rattle.gem_ids.specs.Texts.{IsText};
ghost use Rattle.gem_rows.specs.Events.{ceid_of, ceids, is_ceid, row_of, numbers_from};
ghost use Rattle.gem_rows.specs.Variables.{vid_name, is_vid, status_variable, status_vids};
ghost use Rattle.gem_rows.specs.Alarms.{alarm_text, alids};
ghost use Rattle.gem_rows.specs.Rising.{rises};
ghost use Rattle.gem_tables.specs.declared.firing.RowId.{RowId};

/// A CEID names one row, and a row's event has one CEID.
pub fn a_row_and_its_ceid_name_each_other()
    ensures row { (table row ceid : ℕ) → ceid_of table row ≡ Some ceid → row_of ceid ≡ Some (record { table = table; row = row }) }
    ensures ceid { (ceid : ℕ) (r : RowId) → row_of ceid ≡ Some r → ceid_of r.table r.row ≡ Some ceid }
{}

/// The list of all CEIDs rises, and has each of them and no other number.
pub fn the_list_has_each_ceid_once()
    ensures rising { rises ceids ≡ true }
    ensures each { (number : ℕ) → list_any (λ ceid. ceid == number) ceids ≡ is_ceid number }
{}

/// The list of the numbers of status variables rises, and has each of them and no other number.
pub fn the_list_has_each_status_variable_once()
    ensures rising { rises status_vids ≡ true }
    ensures each { (number : ℕ) → list_any (λ vid. vid == number) status_vids ≡ is_some (status_variable number) }
{}

/// The names of variables and the texts of alarms are texts of at most 80 bytes that print.
pub fn names_are_texts()
    ensures variables { (vid : ℕ) → IfSome (vid_name vid) IsText }
    ensures alarms { (alid : ℕ) → IfSome (alarm_text alid) IsText }
{}

/// In each plant, of 0 to 4 ports and 0 to 8 chambers, the alarms rise and have texts.
pub fn alarms_of_a_plant_rise_and_have_texts()
    ensures { list_all (λ ports. list_all (λ chambers. rises (alids ports chambers) && list_all (λ alid. is_some (alarm_text alid)) (alids ports chambers)) (numbers_from 0 9)) (numbers_from 0 5) ≡ true }
{}

/// In each plant, of 0 to 4 ports and 0 to 8 chambers, the variables have names.
pub fn variables_of_a_plant_have_names()
    ensures { (ports chambers vid : ℕ) → ports ≤ 4 → chambers ≤ 8 → is_vid ports chambers vid ≡ true → IsSome (vid_name vid) }
{}

//! Laws of the equipment constants, for proofs to cite. Each function is empty: what it ensures holds of the definitions.

ghost use Rattle.item_model.specs.Plain.{count_of};
ghost use Rattle.item_model.specs.Weight.{AreBounded};
ghost use Rattle.std.specs.Prelude.{map, ◌≡◌, ℕ, ◌^◌, ◌<◌, true, List, Some, Option, length};
ghost use Rattle.std.specs.Option.{option_eq};
ghost use Rattle.std.specs.Str.{bytes_eq};
ghost use Rattle.std.specs.List.{list_all};
ghost use Rattle.gem_rows.specs.Variables.{vid_name};
ghost use Rattle.item_model.specs.Sendable.{IsSendable};
ghost use Rattle.data_variables.specs.declared.val.Val.{Val};
ghost use Rattle.data_variables.specs.Table.{constant_lines, defaults, is_allowed};
ghost use Rattle.data_variables.specs.Values.{AreConstants, value_of};
ghost use Rattle.data_variables.specs.Setting.{set_all_after};
ghost use Rattle.data_variables.specs.Bodies.{items, name_item, namelist_of, value_item};

/// The defaults are values of their constants, in the printed order.
pub fn the_defaults_are_constants()
    ensures { AreConstants defaults }
{}

/// Each constant is a variable of the same name.
pub fn constants_are_variables()
    ensures { list_all (λ c. option_eq bytes_eq (vid_name c.ecid) (Some c.name)) constant_lines ≡ true }
{}

/// Constants stay constants, whatever is set: in the printed order, each in its range.
pub fn setting_keeps_constants()
    ensures { (sets : List (ℕ × Option Val)) (values : List (ℕ × Val)) → AreConstants values → AreConstants (set_all_after sets values) }
{}

/// The value of each constant is of its kind and in its range.
pub fn each_value_is_in_range()
    ensures { (values : List (ℕ × Val)) (ecid : ℕ) (value : Val) → AreConstants values → value_of ecid values ≡ Some value → is_allowed ecid value ≡ true }
{}

/// A value can be sent, and so can the body of S2F30 where it has fewer than 16,777,216 ECIDs. What is told of a constant
/// takes at most 210 bytes.
pub fn values_and_names_can_be_sent()
    ensures value { (value : Val) → IsSendable (value_item value) }
    ensures namelist { (ids : List ℕ) → length ids < 2 ^ 24 → IsSendable (namelist_of ids) }
    ensures bounded { (ids : List ℕ) → AreBounded 1 210 (items (map name_item ids)) }
    ensures counted { (ids : List ℕ) → count_of (items (map name_item ids)) ≡ length ids }
{}

//! Laws of the definitions that contracts cite.
ghost use Rattle.std.specs.Prelude.{◌≡◌, ℕ, List, Some, slice_get};
ghost use Rattle.pb_tdf.specs.declared.fault.TdfFault.{TdfFault};
ghost use Rattle.pb_tdf.specs.Definition.{Definition, TableBytes, FileBytes, IsPartOf};
ghost use Rattle.pb_tdf.specs.Refusal.{TableFault, FileFault};

/// One list of bytes is at most one table, and at most one file.
pub fn one_definition()
    ensures table { (bytes : List ℕ) (d e : Definition)
        → TableBytes d bytes → TableBytes e bytes → d ≡ e }
    ensures file { (bytes : List ℕ) (ds es : List Definition)
        → FileBytes ds bytes → FileBytes es bytes → ds ≡ es }
{}

/// The bytes of each table are a part of its file's, and are that table by themselves.
pub fn tables_are_parts_of_their_file()
    ensures { (bytes : List ℕ) (ds : List Definition) (n : ℕ) (d : Definition)
        → FileBytes ds bytes → slice_get ds n ≡ Some d → IsPartOf bytes ds n d }
{}

/// Bytes that are a table, or a file, have no fault.
pub fn definitions_have_no_fault()
    ensures table { (bytes : List ℕ) (d : Definition) (fault : TdfFault)
        → TableBytes d bytes → TableFault bytes fault → ⊥ }
    ensures file { (bytes : List ℕ) (ds : List Definition) (fault : TdfFault)
        → FileBytes ds bytes → FileFault bytes fault → ⊥ }
{}

/// Bytes have at most one fault.
pub fn one_fault()
    ensures table { (bytes : List ℕ) (f g : TdfFault)
        → TableFault bytes f → TableFault bytes g → f ≡ g }
    ensures file { (bytes : List ℕ) (f g : TdfFault)
        → FileFault bytes f → FileFault bytes g → f ≡ g }
{}

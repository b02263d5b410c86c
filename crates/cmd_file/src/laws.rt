//! What the definition of a command file comes to, as a law. The function does nothing: whoever needs
//! the law calls it, or cites the lemma behind it.

ghost use Rattle.std.specs.Prelude.{◌≡◌, ℕ, List, Ok};
ghost use Rattle.pool_model.specs.Plain.{Part};
ghost use Rattle.pool_model.specs.File.{file_of};
ghost use Rattle.cmd_file.specs.Items.{AreItems};

/// The items of a good file are at most 10,000, each a `stat`, an `import`, or a group of at most 65,536
/// writes of lane 0 whose moment, slots and blocks keep to their ranges. Where the definition has prunes and
/// settings run, these are among them, with their numbers in their ranges.
pub fn items_have_their_form()
    ensures { (bytes : List ℕ) (parts : List Part) → file_of bytes ≡ Ok parts → AreItems parts }
{}

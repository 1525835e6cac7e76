//! What an open finds in the files of a database, as the contract of a function that does nothing.
ghost use Rattle.std.specs.Prelude.{◌≡◌};
ghost use Rattle.sqlite_wal.specs.Recovery.{Image};
ghost use Rattle.sqlite_trees.specs.Tree.{Trees};
ghost use Rattle.sqlite.specs.Files.{HoldsDatabase, IsEmpty, IsNothing};
ghost use Rattle.mcy_keeper.specs.Books.{LeavesSome};
ghost use Rattle.keeper_file.specs.Contents.{Found, IsFoundIn};

/// Files hold one database at most, and it is what an open finds. In files that hold nothing, as an empty one, it finds an empty
/// database. In files of any content something is found: a book, or none.
pub fn files_hold_one_database()
    ensures one { (image : Image) (a b : Trees) → HoldsDatabase image a → HoldsDatabase image b → a ≡ b }
    ensures held { (image : Image) (db : Trees) → HoldsDatabase image db → IsFoundIn image db }
    ensures nothing { (image : Image) (db : Trees) → IsNothing image → IsEmpty db → IsFoundIn image db }
    ensures some { (image : Image) → LeavesSome (Found image) }
{}

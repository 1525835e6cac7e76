//! The statements that make the tables, the transaction of the four, and the making of `journal2` beside the three of a database that
//! knows the first format alone.
ghost use Rattle.std.specs.Prelude.{◌≡◌, [], true, false, IsTrue, IfErr, OnOk};
ghost use Rattle.sqlite.specs.Held.{state};
ghost use Rattle.sqlite.specs.State.{HasCleanDisk, Survives};
ghost use Rattle.keeper_sqlite.specs.Tables.{IsFirstSchema, no_schema};
ghost use Rattle.keeper_sqlite.specs.Creating.{meta_table, mutations_table, journal_table, second_table, schema_of_meta, schema_of_items, MakesTable};
ghost use Rattle.keeper_sqlite.specs.Making.{HasCreated, HasMade, HasAddedSecond, AreMade, MayMake};
ghost use Rattle.keeper_sqlite.specs.Refusals.{IsRefusedInsideWith};
ghost use Rattle.keeper_sqlite.specs.Unloaded.{IsCreateRefused, AreNotMade, IsNotAddedTo};

use crate::statements::{CREATE_JOURNAL, CREATE_META, CREATE_MUTATIONS, CREATE_SECOND};
use sqlite::{Alter, Connection, Error, Transaction};

/// Makes `meta` where there is no table.
fn create_meta<S: Alter>(transaction: &mut Transaction<'_, S>) -> Result<usize, Error>
    ensures same_reference { transaction.new.conn.ghost_name ≡ transaction.old.conn.ghost_name }
    ensures made { HasCleanDisk (state S.Store transaction.new.conn.now) → IsTrue (state S.Store transaction.old.conn.now).in_transaction → (state S.Store transaction.old.conn.now).now.schema ≡ no_schema
        → OnOk result (MakesTable no_schema meta_table (state S.Store transaction.old.conn.now) (state S.Store transaction.new.conn.now)) }
    ensures told { HasCleanDisk (state S.Store transaction.new.conn.now) → IsTrue (state S.Store transaction.old.conn.now).in_transaction → IfErr result (IsRefusedInsideWith CREATE_META.now [] (state S.Store transaction.old.conn.now) (state S.Store transaction.new.conn.now)) }
    ensures crash { Survives (state S.Store transaction.old.conn.now) (state S.Store transaction.new.conn.now) (λ _. ⊥) }
{
    transaction.execute(CREATE_META, &[])
}

/// Makes `mutations` beside `meta`.
fn create_mutations<S: Alter>(transaction: &mut Transaction<'_, S>) -> Result<usize, Error>
    ensures same_reference { transaction.new.conn.ghost_name ≡ transaction.old.conn.ghost_name }
    ensures made { HasCleanDisk (state S.Store transaction.new.conn.now) → IsTrue (state S.Store transaction.old.conn.now).in_transaction → (state S.Store transaction.old.conn.now).now.schema ≡ schema_of_meta
        → OnOk result (MakesTable schema_of_meta mutations_table (state S.Store transaction.old.conn.now) (state S.Store transaction.new.conn.now)) }
    ensures told { HasCleanDisk (state S.Store transaction.new.conn.now) → IsTrue (state S.Store transaction.old.conn.now).in_transaction → IfErr result (IsRefusedInsideWith CREATE_MUTATIONS.now [] (state S.Store transaction.old.conn.now) (state S.Store transaction.new.conn.now)) }
    ensures crash { Survives (state S.Store transaction.old.conn.now) (state S.Store transaction.new.conn.now) (λ _. ⊥) }
{
    transaction.execute(CREATE_MUTATIONS, &[])
}

/// Makes `journal` beside the two tables of items.
fn create_journal<S: Alter>(transaction: &mut Transaction<'_, S>) -> Result<usize, Error>
    ensures same_reference { transaction.new.conn.ghost_name ≡ transaction.old.conn.ghost_name }
    ensures made { HasCleanDisk (state S.Store transaction.new.conn.now) → IsTrue (state S.Store transaction.old.conn.now).in_transaction → (state S.Store transaction.old.conn.now).now.schema ≡ schema_of_items
        → OnOk result (MakesTable schema_of_items journal_table (state S.Store transaction.old.conn.now) (state S.Store transaction.new.conn.now)) }
    ensures told { HasCleanDisk (state S.Store transaction.new.conn.now) → IsTrue (state S.Store transaction.old.conn.now).in_transaction → IfErr result (IsRefusedInsideWith CREATE_JOURNAL.now [] (state S.Store transaction.old.conn.now) (state S.Store transaction.new.conn.now)) }
    ensures crash { Survives (state S.Store transaction.old.conn.now) (state S.Store transaction.new.conn.now) (λ _. ⊥) }
{
    transaction.execute(CREATE_JOURNAL, &[])
}

/// Makes `journal2` beside the three tables.
fn create_second<S: Alter>(transaction: &mut Transaction<'_, S>) -> Result<usize, Error>
    ensures same_reference { transaction.new.conn.ghost_name ≡ transaction.old.conn.ghost_name }
    ensures made { HasCleanDisk (state S.Store transaction.new.conn.now) → IsTrue (state S.Store transaction.old.conn.now).in_transaction → IsFirstSchema (state S.Store transaction.old.conn.now).now.schema
        → OnOk result (MakesTable (state S.Store transaction.old.conn.now).now.schema second_table (state S.Store transaction.old.conn.now) (state S.Store transaction.new.conn.now)) }
    ensures told { HasCleanDisk (state S.Store transaction.new.conn.now) → IsTrue (state S.Store transaction.old.conn.now).in_transaction → IfErr result (IsRefusedInsideWith CREATE_SECOND.now [] (state S.Store transaction.old.conn.now) (state S.Store transaction.new.conn.now)) }
    ensures crash { Survives (state S.Store transaction.old.conn.now) (state S.Store transaction.new.conn.now) (λ _. ⊥) }
{
    transaction.execute(CREATE_SECOND, &[])
}

/// Makes the four tables.
fn create_tables<S: Alter>(transaction: &mut Transaction<'_, S>) -> Result<(), Error>
    ensures same_reference { transaction.new.conn.ghost_name ≡ transaction.old.conn.ghost_name }
    ensures made { HasCleanDisk (state S.Store transaction.new.conn.now) → IsTrue (state S.Store transaction.old.conn.now).in_transaction → (state S.Store transaction.old.conn.now).now.schema ≡ no_schema
        → OnOk result (HasCreated (state S.Store transaction.old.conn.now) (state S.Store transaction.new.conn.now)) }
    ensures told { HasCleanDisk (state S.Store transaction.new.conn.now) → IsTrue (state S.Store transaction.old.conn.now).in_transaction → (state S.Store transaction.old.conn.now).now.schema ≡ no_schema → IfErr result (IsCreateRefused S.Store transaction.new.conn.now) }
    ensures crash { Survives (state S.Store transaction.old.conn.now) (state S.Store transaction.new.conn.now) (λ _. ⊥) }
{
    create_meta(transaction)?;
    create_mutations(transaction)?;
    create_journal(transaction)?;
    create_second(transaction)?;
    Ok(())
}

/// Makes the tables of an empty book, all or none.
pub(crate) fn make_tables<S: Alter>(connection: &mut Connection<S>) -> Result<(), Error>
    requires { (state S.Store connection.old).in_transaction ≡ false }
    ensures made { HasCleanDisk (state S.Store connection.new) → (state S.Store connection.old).now.schema ≡ no_schema → OnOk result (HasMade (state S.Store connection.old) (state S.Store connection.new)) }
    ensures told { HasCleanDisk (state S.Store connection.new) → (state S.Store connection.old).now.schema ≡ no_schema → IfErr result (AreNotMade S.Store (record connection.old { in_transaction = true })) }
    ensures crash { Survives (state S.Store connection.old) (state S.Store connection.new) (λ trees. (state S.Store connection.old).now.schema ≡ no_schema → IsTrue (state S.Store connection.old).is_open × AreMade trees) }
{
    let mut transaction = connection.transaction();
    create_tables(&mut transaction)?;
    transaction.commit()
}

/// Makes `journal2` beside the three tables of a database that knows the first format alone, in one transaction.
pub(crate) fn add_second<S: Alter>(connection: &mut Connection<S>) -> Result<(), Error>
    requires { (state S.Store connection.old).in_transaction ≡ false }
    ensures made { HasCleanDisk (state S.Store connection.new) → IsFirstSchema (state S.Store connection.old).now.schema → OnOk result (HasAddedSecond (state S.Store connection.old) (state S.Store connection.new)) }
    ensures told { HasCleanDisk (state S.Store connection.new) → IsFirstSchema (state S.Store connection.old).now.schema → IfErr result (IsNotAddedTo S.Store (record connection.old { in_transaction = true })) }
    ensures crash { Survives (state S.Store connection.old) (state S.Store connection.new) (λ trees. IsFirstSchema (state S.Store connection.old).now.schema → MayMake (state S.Store connection.old) trees) }
{
    let _sound = connection.schema();
    let _settled = connection.is_autocommit();
    let mut transaction = connection.transaction();
    create_second(&mut transaction)?;
    transaction.commit()
}

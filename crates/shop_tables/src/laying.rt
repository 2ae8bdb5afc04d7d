//! The statements that make all tables, each table by one.

ghost use Rattle.std.specs.Prelude.{◌≡◌, false, map, OnOk};
ghost use Rattle.sqlite.specs.State.{HasCleanDisk};
ghost use Rattle.sqlite.specs.Does.{lacks_sequence};
ghost use Rattle.sqlite.specs.Held.{state};
ghost use Rattle.shop_statements.specs.Layout.{no_schema, shop_schema, meta_table, materials_table, parts_table, jobs_table, orders_table, demands_table, kept_table, imports_table, totals_table, totals2_table, journal_table, uses_table, notes_table, begun_table, halts_table};
ghost use Rattle.shop_tables.specs.Adopting.{IsMadeBeside, MakesTables};
ghost use Rattle.shop_tables.specs.Laying.{Adds, AreRun, Does, IsRun, PutsFirstNumbers};
ghost use Rattle.shop_tables.specs.declared.laying.TheConstants.{META, MATERIALS, PARTS, JOBS, ORDERS, DEMANDS, KEPT, IMPORTS, TOTALS, TOTALS2, JOURNAL, USES, NOTES, BEGUN, HALTS, FIRST_NUMBERS};
ghost use Rattle.shop_statements.specs.Shown.{fresh_books, Ran, Within};

use sqlite::{Alter, Error, Transaction};

// The version and the last numbers, each under a word.
const META: &str =
    "CREATE TABLE meta (name TEXT NOT NULL PRIMARY KEY, value INTEGER NOT NULL) STRICT";

// Materials by their codes.
const MATERIALS: &str =
    "CREATE TABLE materials (code TEXT NOT NULL PRIMARY KEY, kind INTEGER NOT NULL, kerf INTEGER NOT NULL, min_long INTEGER NOT NULL, min_short INTEGER NOT NULL) STRICT";

// Parts by their names.
const PARTS: &str =
    "CREATE TABLE parts (act INTEGER NOT NULL, node INTEGER NOT NULL, material TEXT NOT NULL REFERENCES materials (code), batch TEXT NOT NULL, root_act INTEGER NOT NULL, root_node INTEGER NOT NULL, x INTEGER NOT NULL, y INTEGER NOT NULL, w INTEGER NOT NULL, h INTEGER NOT NULL, state INTEGER NOT NULL, detail INTEGER NOT NULL, PRIMARY KEY (act, node)) STRICT";

// Jobs by their numbers.
const JOBS: &str =
    "CREATE TABLE jobs (job INTEGER NOT NULL PRIMARY KEY, part_act INTEGER NOT NULL, part_node INTEGER NOT NULL, tree TEXT NOT NULL, state INTEGER NOT NULL, FOREIGN KEY (part_act, part_node) REFERENCES parts (act, node)) STRICT";

// The codes of orders.
const ORDERS: &str = "CREATE TABLE orders (ord TEXT NOT NULL PRIMARY KEY) STRICT";

// Demands by their numbers.
const DEMANDS: &str =
    "CREATE TABLE demands (number INTEGER NOT NULL PRIMARY KEY, ord TEXT NOT NULL REFERENCES orders (ord), line INTEGER NOT NULL, material TEXT NOT NULL REFERENCES materials (code), w INTEGER NOT NULL, h INTEGER NOT NULL, turn INTEGER NOT NULL, worth INTEGER NOT NULL, wanted INTEGER NOT NULL, reserved INTEGER NOT NULL, made INTEGER NOT NULL, UNIQUE (ord, line), CHECK (reserved + made <= wanted)) STRICT";

// Kept messages by terminal and number.
const KEPT: &str =
    "CREATE TABLE kept (terminal INTEGER NOT NULL, number INTEGER NOT NULL, command TEXT NOT NULL, reply TEXT NOT NULL, PRIMARY KEY (terminal, number)) STRICT";

// Imports by the codes of their orders.
const IMPORTS: &str =
    "CREATE TABLE imports (ord TEXT NOT NULL PRIMARY KEY REFERENCES orders (ord), form INTEGER NOT NULL, material TEXT NOT NULL, body TEXT NOT NULL, reply TEXT NOT NULL) STRICT";

// What totals were in version 1; nothing since.
const TOTALS: &str =
    "CREATE TABLE totals (material TEXT NOT NULL PRIMARY KEY REFERENCES materials (code), received INTEGER NOT NULL, stock INTEGER NOT NULL, rack INTEGER NOT NULL, pieces INTEGER NOT NULL, kerf INTEGER NOT NULL, scrap INTEGER NOT NULL) STRICT";

// Totals by the codes of their materials.
pub(crate) const TOTALS2: &str =
    "CREATE TABLE totals2 (material TEXT NOT NULL PRIMARY KEY REFERENCES materials (code), received INTEGER NOT NULL, stock INTEGER NOT NULL, rack INTEGER NOT NULL, pieces INTEGER NOT NULL, kerf INTEGER NOT NULL, scrap INTEGER NOT NULL, returned INTEGER NOT NULL) STRICT";

// Entries by their numbers.
pub(crate) const JOURNAL: &str =
    "CREATE TABLE journal (entry INTEGER NOT NULL PRIMARY KEY, at INTEGER NOT NULL, terminal INTEGER NOT NULL, number INTEGER NOT NULL, word TEXT NOT NULL, act INTEGER NOT NULL, job INTEGER NOT NULL, ord TEXT NOT NULL, part_act INTEGER NOT NULL, part_node INTEGER NOT NULL) STRICT";

// The orders of which a job's plan has a piece.
pub(crate) const USES: &str =
    "CREATE TABLE uses (job INTEGER NOT NULL, ord TEXT NOT NULL, PRIMARY KEY (job, ord)) STRICT";

// What is said of orders; nothing yet.
pub(crate) const NOTES: &str =
    "CREATE TABLE notes (ord TEXT NOT NULL PRIMARY KEY REFERENCES orders (ord), due INTEGER NOT NULL, body TEXT NOT NULL) STRICT";

// Who has begun to cut a job; nothing yet.
pub(crate) const BEGUN: &str =
    "CREATE TABLE begun (job INTEGER NOT NULL PRIMARY KEY REFERENCES jobs (job), terminal INTEGER NOT NULL) STRICT";

// Where jobs were broken off; nothing yet.
pub(crate) const HALTS: &str =
    "CREATE TABLE halts (job INTEGER NOT NULL PRIMARY KEY REFERENCES jobs (job), body TEXT NOT NULL) STRICT";

// The numbers of a shop in which nothing was done yet.
const FIRST_NUMBERS: &str =
    "INSERT INTO meta (name, value) VALUES ('version', 3), ('act', 0), ('demand', 0)";

// All of them, in the order in which they run.
const TEXTS: [&str; 16] = [
    META,
    MATERIALS,
    PARTS,
    JOBS,
    ORDERS,
    DEMANDS,
    KEPT,
    IMPORTS,
    TOTALS,
    TOTALS2,
    JOURNAL,
    USES,
    NOTES,
    BEGUN,
    HALTS,
    FIRST_NUMBERS,
];

/// What each statement does: the table that it makes, whatever tables there are, and the numbers that it puts.
pub fn statements_make_tables<S: Alter>()
    ensures meta { Adds S.Store META.now meta_table }
    ensures materials { Adds S.Store MATERIALS.now materials_table }
    ensures parts { Adds S.Store PARTS.now parts_table }
    ensures jobs { Adds S.Store JOBS.now jobs_table }
    ensures orders { Adds S.Store ORDERS.now orders_table }
    ensures demands { Adds S.Store DEMANDS.now demands_table }
    ensures kept { Adds S.Store KEPT.now kept_table }
    ensures imports { Adds S.Store IMPORTS.now imports_table }
    ensures totals { Adds S.Store TOTALS.now totals_table }
    ensures totals2 { Adds S.Store TOTALS2.now totals2_table }
    ensures journal { Adds S.Store JOURNAL.now journal_table }
    ensures uses { Adds S.Store USES.now uses_table }
    ensures notes { Adds S.Store NOTES.now notes_table }
    ensures begun { Adds S.Store BEGUN.now begun_table }
    ensures halts { Adds S.Store HALTS.now halts_table }
    ensures numbers { Does S.Store FIRST_NUMBERS.now shop_schema PutsFirstNumbers }
{}

fn run_text<S: Alter>(tx: &mut Transaction<'_, S>, text: &str) -> Result<(), Error>
    ensures same_reference { tx.new.conn.ghost_name ≡ tx.old.conn.ghost_name }
    ensures run { HasCleanDisk (state S.Store tx.new.conn.now)
        → OnOk result (IsRun text.now (state S.Store tx.old.conn.now)
        (state S.Store tx.new.conn.now)) }
    ensures within { Within (state S.Store tx.old.conn.now) (state S.Store tx.new.conn.now) }
{
    tx.execute(text, &[])?;
    Ok(())
}

/// Runs statements one after another inside a transaction, up to the first that fails.
pub(crate) fn run_all<S: Alter>(tx: &mut Transaction<'_, S>, texts: &[&str]) -> Result<(), Error>
    ensures same_reference { tx.new.conn.ghost_name ≡ tx.old.conn.ghost_name }
    ensures run { HasCleanDisk (state S.Store tx.new.conn.now)
        → OnOk result (AreRun S.Store (map (λ text. text.now) texts.now) tx.old.conn.now
        tx.new.conn.now) }
    ensures within { Within (state S.Store tx.old.conn.now) (state S.Store tx.new.conn.now) }
{
    let Some((first, more)) = texts.split_first() else {
        return Ok(());
    };
    run_text(tx, first)?;
    run_all(tx, more)
}

/// Makes all tables, with the rows of a shop in which nothing was done yet: in an empty database, or behind the tables of others.
pub(crate) fn lay_tables<S: Alter>(tx: &mut Transaction<'_, S>) -> Result<(), Error>
    ensures same_reference { tx.new.conn.ghost_name ≡ tx.old.conn.ghost_name }
    ensures laid { tx.old.conn.now.schema ≡ no_schema
        → OnOk result (MakesTables (state S.Store tx.old.conn.now) (state S.Store tx.new.conn.now)
        fresh_books) }
    ensures ran { OnOk result (Ran (state S.Store tx.old.conn.now)
        (state S.Store tx.new.conn.now)) }
    ensures beside { lacks_sequence tx.old.conn.now.schema ≡ false
        → HasCleanDisk (state S.Store tx.new.conn.now)
        → OnOk result (IsMadeBeside (state S.Store tx.old.conn.now).now
        (state S.Store tx.new.conn.now).now) }
    ensures within { Within (state S.Store tx.old.conn.now) (state S.Store tx.new.conn.now) }
{
    run_all(tx, &TEXTS)
}

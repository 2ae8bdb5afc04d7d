//! Parts that a query visits one row at a time.

ghost use Rattle.std.specs.Prelude.{◌≡◌, ◌≢◌, true, false, IfOk, IfSome, IfNone};
ghost use Rattle.sqlite.specs.Held.{state};
ghost use Rattle.sqlite.specs.Values.{bound};
ghost use Rattle.std.specs.FinMap.{values};
ghost use Rattle.shop_statements.specs.Earlier.{OnBooksEarlier, OnBooksSecond};
ghost use Rattle.shop_tables.specs.Visiting.{IsBorrowed, IsReadOf, gone_through};
ghost use Rattle.shop_statements.specs.Selecting.{is_select};
ghost use Rattle.shop_statements.specs.Shown.{Leaves, OnBooks};
ghost use Rattle.shop_tables.specs.Invalid.{IsNoPart};
ghost use Rattle.shop_tables.specs.declared.visiting.VisitEnd.TheVariants.{Invalid};
ghost use Rattle.shop_records.specs.Visits.{IsVisit};

use crate::invalid::may_be_part;
use shop_records::{Part, PartVisitor};
use shop_statements::{TableFault, code_in, name_in, number_in, size_in, state_in};
use sqlite::types::ValueRef;
use sqlite::{Alter, Connection, Row};

/// More rows than a table has.
const MAX_ROWS: u64 = 18446744073709551615;

/// How the rows of a query were gone through.
#[derive(Clone, Copy, Debug, PartialEq, Eq)]
pub enum VisitEnd {
    /// To the end.
    All,
    /// Up to the part at which the visitor stopped.
    Stopped,
    /// Up to a row that stands for no part.
    Invalid,
}

// A part of which each column is shown, its name first.
fn read_whole(row: &Row) -> Result<Part, TableFault>
    ensures { IfOk result (IsReadOf row.now) }
{
    Ok(Part {
        name: name_in(row, 0)?,
        material: code_in(row, 2)?,
        batch: code_in(row, 3)?,
        root: name_in(row, 4)?,
        x: number_in(row, 6)?,
        y: number_in(row, 7)?,
        size: size_in(row, 8)?,
        state: state_in(row, 10)?,
    })
}

// None where the row is no part's.
fn read_borrowed(row: &Row) -> Result<Option<Part>, TableFault>
    ensures read { IfOk result (λ part. IfSome part (IsReadOf row.now)) }
    ensures invalid { IfOk result (λ part. IfNone part (IsNoPart row.now)) }
{
    if !may_be_part(row) {
        return Ok(None);
    }
    let part = read_whole(row)?;
    Ok(Some(part))
}

/// Hands the parts that a query shows to a visitor, for as long as it answers true.
fn visit_rows<S: Alter, V: PartVisitor>(
    conn: &mut Connection<S>,
    sql: &str,
    params: &[ValueRef<'_>],
    visitor: &mut V,
) -> Result<VisitEnd, TableFault>
    requires { is_select sql.now ≡ true }
    ensures borrowed { IsBorrowed S.Store sql.now
        (bound params.now) conn.old V.looks conn.new visitor.old result visitor.new }
    ensures leaves { Leaves (state S.Store conn.old) (state S.Store conn.new) }
    ensures mode { conn.old.in_transaction ≡ false → conn.new.in_transaction ≡ false }
{
    let mut rows = conn.query(sql, params)?;
    'rows: for _ in 0..MAX_ROWS {
        rows.advance()?;
        let Some(row) = rows.get() else {
            return Ok(VisitEnd::All);
        };
        let Some(part) = read_borrowed(row)? else {
            return Ok(VisitEnd::Invalid);
        };
        if !visitor.part(&part) {
            return Ok(VisitEnd::Stopped);
        }
    }
    Err(TableFault::Store)
}

/// Hands every part to a visitor, by rising act and then node, for as long as it answers true. The result says how far it
/// came; after an `Err` and before an invalid row too the parts that were handed out begin all parts. Tables that stand for
/// books have no invalid row.
pub fn visit_all_parts<S: Alter, V: PartVisitor>(
    conn: &mut Connection<S>,
    visitor: &mut V,
) -> Result<VisitEnd, TableFault>
    ensures visit { IsVisit V.looks
        (λ what. OnBooks (state S.Store conn.old) (state S.Store conn.new)
        (λ books. what (values books.content.parts))) visitor.old
        (gone_through result) visitor.new }
    ensures invalid { OnBooks (state S.Store conn.old) (state S.Store conn.new)
        (λ _. IfOk result (λ how. how ≢ Invalid)) }
    ensures earlier { IsVisit V.looks
        (λ what. OnBooksEarlier (state S.Store conn.old) (state S.Store conn.new)
        (λ books. what (values books.content.parts))) visitor.old
        (gone_through result) visitor.new }
    ensures second { IsVisit V.looks
        (λ what. OnBooksSecond (state S.Store conn.old) (state S.Store conn.new)
        (λ books. what (values books.content.parts))) visitor.old
        (gone_through result) visitor.new }
    ensures earlier_invalid { OnBooksEarlier (state S.Store conn.old) (state S.Store conn.new)
        (λ _. IfOk result (λ how. how ≢ Invalid)) }
    ensures second_invalid { OnBooksSecond (state S.Store conn.old) (state S.Store conn.new)
        (λ _. IfOk result (λ how. how ≢ Invalid)) }
    ensures leaves { Leaves (state S.Store conn.old) (state S.Store conn.new) }
    ensures mode { conn.old.in_transaction ≡ false → conn.new.in_transaction ≡ false }
{
    visit_rows(
        conn,
        "SELECT act, node, material, batch, root_act, root_node, x, y, w, h, state, detail FROM parts ORDER BY act, node",
        &[],
        visitor,
    )
}

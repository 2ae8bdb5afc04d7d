//! What holds of every history of the shop: its content is well-formed, each cell has exactly one owner, and its newest part
//! is written in entries, whose times decide nothing.

ghost use Rattle.std.specs.Prelude.{◌≡◌, ◌≢◌, ◌≤◌, ◌+◌, ◌↔◌, ℕ, List, Some, None, ◌++◌, ◌∷◌, not, true};
ghost use Rattle.std.specs.List.{list_all};
ghost use Rattle.cut_measure.specs.Names.{Name};
ghost use Rattle.cut_tree.specs.declared.lay.Row.{Row};
ghost use Rattle.cut_tree.specs.Tree.{Tree, IsShaped};
ghost use Rattle.cut_tree.specs.Cells.{Outcome};
ghost use Rattle.cut_tree.specs.Laying.{IsLaid};
ghost use Rattle.shop_records.specs.declared.changes.Change.{Change};
ghost use Rattle.shop_records.specs.declared.messages.Message.{Message};
ghost use Rattle.shop_records.specs.declared.refusals.Refusal.TheVariants.{StoreFault};
ghost use Rattle.shop_records.specs.Messages.{Texts, IsMessage, IsMade, message_id_of};
ghost use Rattle.shop_records.specs.Readings.{Reading};
ghost use Rattle.shop_records.specs.declared.imports.ImportRow.{ImportRow};
ghost use Rattle.std.specs.FinMap.{len};
ghost use Rattle.shop_records.specs.declared.messages.Reply.{Reply};
ghost use Rattle.shop_records.specs.declared.journal.Entry.{Entry as EntryOf};
ghost use Rattle.shop_records.specs.Content.{Content, kept_at, import_at, entry_at, entry_count, forgotten, without_times, changed};
ghost use Rattle.shop_machine.specs.Machine.{Reads, refusal_of, Makes, keeping, keeping_at, Accepts, Step, StepAt, Effect, Ends};
ghost use Rattle.shop_machine.specs.History.{Entry, Gives, GivesAll, IsAccountOf, AreNewest, message_ids_of, entered_message_ids, ends_job, owner_of, owner_before};
ghost use Rattle.shop_records.specs.WellFormed.{IsWellFormed, Fits};
ghost use Rattle.shop_machine.specs.Sharing.{SharesCells};

/// Every history gives a well-formed content, and has its account: each cell of each received unit has exactly one owner, a
/// part that isn't cut is the owner of each of its cells, as its row says, the totals are the counts of cells and add up;
/// of each demand no more is reserved and made than wanted, what is reserved being in the plans of waiting jobs, and what
/// is made being pieces; the last act is the number of acts, the last demand that of the ordered lines, and the demand of
/// each number is that of the line ordered as this one, whatever the number.
pub fn histories_have_accounts()
    ensures well_formed { (texts : Texts) (history : List Entry) (content : Content)
        → Gives texts history content → IsWellFormed texts content }
    ensures account { (texts : Texts) (history : List Entry) (content : Content)
        → Gives texts history content → IsAccountOf texts history content }
{}

/// What is accepted on a well-formed content fits it, gets a reply that is read back, and leaves a well-formed content; and
/// rows of a well-formed content never contradict each other.
pub fn accepted_changes_fit()
    ensures fits { (texts : Texts) (m : Content) (message : Message) (read : Reading)
        (change : Change)
        → IsWellFormed texts m → Reads texts m message.command read
        → refusal_of m message.command read ≡ None → Makes m message.command read change
        → kept_at m (message_id_of message) ≡ None → Fits m (keeping texts message change) }
    ensures reported { (texts : Texts) (m : Content) (message : Message) (read : Reading)
        (change : Change)
        → IsWellFormed texts m → Reads texts m message.command read
        → refusal_of m message.command read ≡ None → Makes m message.command read change
        → IsMessage message → IsMade change.reply }
    ensures well_formed { (texts : Texts) (m : Content) (message : Message) (read : Reading)
        (change : Change)
        → IsWellFormed texts m → Reads texts m message.command read
        → refusal_of m message.command read ≡ None → Makes m message.command read change
        → IsMessage message → IsWellFormed texts (changed m (keeping texts message change)) }
    ensures agrees { (texts : Texts) (m : Content) (message : Message) (read : Reading)
        → IsWellFormed texts m → Reads texts m message.command read
        → refusal_of m message.command read ≢ Some StoreFault }
{}

/// What is kept of an import stays, whatever is accepted after it: so the same import again keeps its reply, also after
/// demands of its order were amended.
pub fn imports_stay()
    ensures { (texts : Texts) (m : Content) (message : Message) (read : Reading)
        (change : Change)
        → IsWellFormed texts m → Reads texts m message.command read
        → refusal_of m message.command read ≡ None → Makes m message.command read change
        → kept_at m (message_id_of message) ≡ None → (code : List ℕ) (row : ImportRow)
        → import_at m code ≡ Some row
        → import_at (changed m (keeping texts message change)) code ≡ Some row }
{}

/// What is accepted on a well-formed content fits it with its entry too, whenever it is accepted, and leaves a well-formed
/// content.
pub fn entered_changes_fit()
    ensures fits { (texts : Texts) (m : Content) (message : Message) (read : Reading)
        (change : Change) (at : ℕ)
        → IsWellFormed texts m → Reads texts m message.command read
        → refusal_of m message.command read ≡ None → Makes m message.command read change
        → kept_at m (message_id_of message) ≡ None → Fits m (keeping_at texts at m message change) }
    ensures well_formed { (texts : Texts) (m : Content) (message : Message) (read : Reading)
        (change : Change) (at : ℕ)
        → IsWellFormed texts m → Reads texts m message.command read
        → refusal_of m message.command read ≡ None → Makes m message.command read change
        → IsMessage message
        → IsWellFormed texts (changed m (keeping_at texts at m message change)) }
{}

/// The entries of a content are the newest part of each history that gives it: their message IDs, the newest first, begin
/// those of the history's messages. They are all of them where as many entries are there as messages are kept, and so where no
/// entry was forgotten.
pub fn entries_are_newest()
    ensures newest { (texts : Texts) (history : List Entry) (content : Content)
        → Gives texts history content → AreNewest history content }
    ensures all { (texts : Texts) (history : List Entry) (content : Content)
        → Gives texts history content → len content.kept ≡ entry_count content
        → message_ids_of history ≡ entered_message_ids content }
    ensures unforgotten { (texts : Texts) (history : List Entry) (content : Content)
        → GivesAll texts history content → message_ids_of history ≡ entered_message_ids content }
    ensures given { (texts : Texts) (history : List Entry) (content : Content)
        → GivesAll texts history content → Gives texts history content }
{}

/// What is written of an entry stays: no step changes an entry that is there, or takes one away. A step keeps a message and
/// writes its entry, or neither.
pub fn entries_stay()
    ensures stay { (texts : Texts) (old new : Content) (message : Message) (answer : Reply)
        → IsWellFormed texts old → Step texts old message answer new
        → (number : ℕ) (entry : EntryOf) → entry_at old number ≡ Some entry
        → entry_at new number ≡ Some entry }
    ensures one_each { (texts : Texts) (old new : Content) (message : Message) (answer : Reply)
        → IsWellFormed texts old → Step texts old message answer new
        → len new.kept + entry_count old ≡ len old.kept + entry_count new }
{}

/// Time decides nothing. A message that is accepted with the same reading on two well-formed contents that differ in times
/// alone gets the same reply and leaves such contents, whenever it is accepted; so of one history all contents without times
/// are the same, and all contents but for their entries, whatever was forgotten. A step with a time is a step, and each step
/// is one with some time.
pub fn time_decides_nothing()
    ensures step { (texts : Texts) (a b : Content) (message : Message) (read : Reading)
        (one other : Reply) (new also : Content)
        → IsWellFormed texts a → IsWellFormed texts b → without_times a ≡ without_times b
        → Accepts texts a message read one new → Accepts texts b message read other also
        → (one ≡ other) × (without_times new ≡ without_times also) }
    ensures history { (texts : Texts) (history : List Entry) (a b : Content)
        → GivesAll texts history a → GivesAll texts history b
        → without_times a ≡ without_times b }
    ensures rows { (texts : Texts) (history : List Entry) (a b : Content)
        → Gives texts history a → Gives texts history b → forgotten a ≡ forgotten b }
    ensures untimed { (texts : Texts) (at : ℕ) (old new : Content) (message : Message)
        (answer : Reply)
        → StepAt texts at old message answer new → Step texts old message answer new }
    ensures timed { (texts : Texts) (old new : Content) (message : Message) (answer : Reply)
        → Step texts old message answer new → (at : ℕ) × StepAt texts at old message answer new }
{}

/// The owner of a cell before a job's end, by which an undo gives the cell back, is its owner by the effects before that end,
/// the last one, if there were more.
pub fn owners_before_an_end()
    ensures { (job : ℕ) (outcome : ℕ → Outcome) (later earlier : List Effect) (unit : Name)
        (x y : ℕ)
        → list_all (λ done. not (ends_job job done)) later ≡ true
        → owner_before (later ++ Ends job outcome ∷ earlier) job unit x y
        ≡ owner_of earlier unit x y }
{}

/// Rows are laid for a shaped tree exactly where they share the unit's cells out among its nodes: each row with its node's
/// cells and no others, each cell in a row, the nodes' numbers rising. That each cell has its place inside its row follows.
pub fn shared_cells_are_laid()
    ensures { (t : Tree) (w h k : ℕ) (outcome : ℕ → Outcome) (rows : List Row) → IsShaped t w h k
        → 1 ≤ w → 1 ≤ h
        → SharesCells t w h k outcome rows ↔ IsLaid t w h k outcome rows }
{}

//! What holds of all JSON texts: messages and replies are read back, and no text stands for two.

ghost use Rattle.std.specs.Prelude.{◌≡◌, ◌≤◌, List, Bool, All, IsTrue, Some};
ghost use Rattle.serde_json.specs.Data.{Data};
ghost use Rattle.shop_records.specs.declared.messages.Message.{Message};
ghost use Rattle.shop_records.specs.declared.journal.ReportedEntry.{ReportedEntry};
ghost use Rattle.shop_records.specs.declared.messages.Query.{Query};
ghost use Rattle.shop_records.specs.declared.messages.Reply.{Reply};
ghost use Rattle.shop_records.specs.declared.messages.Reply.TheVariants.{History, Story};
ghost use Rattle.shop_records.specs.Messages.{IsMessage, IsMade};
ghost use Rattle.shop_forms.specs.Forms.{has_few_cuts, message_of, query_of, reply_of, kept_message_of, answer_of, message_data, reply_data, json_texts, ReportsEntry};

/// A message of a terminal from 1 on with at most 255 listed cuts, and a reply that an accepted message can get, are read back from their objects.
pub fn read_back()
    ensures message { (message : Message) → IsMessage message → 1 ≤ message.terminal
        → IsTrue (has_few_cuts message.command) → message_of (message_data message) ≡ Some message }
    ensures reply { (answer : Reply) → IsMade answer → reply_of (reply_data answer) ≡ Some answer }
{}

/// A kept message is read back from its text, terminal 0's too; and entries with their messages and replies are read back
/// from the objects of the replies that report them.
pub fn entries_read_back()
    ensures message { (message : Message) → IsMessage message
        → kept_message_of (json_texts.of_message message) ≡ Some message }
    ensures history { (entries : List ReportedEntry) (more : Bool) → All ReportsEntry entries
        → answer_of (reply_data (History entries more)) ≡ Some (History entries more) }
    ensures story { (entries : List ReportedEntry) (more : Bool) → All ReportsEntry entries
        → answer_of (reply_data (Story entries more)) ≡ Some (Story entries more) }
{}

/// Two messages with one canonical text are one, those of terminal 0 included; and so are two replies that accepted
/// messages can get.
pub fn one_text()
    ensures message { (m n : Message) → IsMessage m → IsMessage n
        → json_texts.of_message m ≡ json_texts.of_message n → m ≡ n }
    ensures reply { (a b : Reply) → IsMade a → IsMade b
        → json_texts.of_reply a ≡ json_texts.of_reply b → a ≡ b }
{}

/// No value is both a message and a query.
pub fn one_kind_of_value()
    ensures { (d : Data) (message : Message) (query : Query) → message_of d ≡ Some message
        → query_of d ≡ Some query → ⊥ }
{}

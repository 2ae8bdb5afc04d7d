//! What is kept of an import: the form and the text that an order came from, and its reply.

use crate::texts::Text;
use cut_measure::Code;
use std::alloc::{AllocError, Global};

/// The form of a text that an order is imported from.
#[derive(Clone, Copy, Debug, PartialEq)]
pub enum Form {
    /// An order file: its lines.
    Csv,
    /// A problem file: its rectangle as a unit of this material, and its pieces as lines.
    Cgcut(Code),
}

/// What is kept of an import: its order's code, its form and text, and the text of its reply.
#[derive(Debug, Drop, PartialEq)]
pub struct ImportRow {
    pub order: Code,
    pub form: Form,
    pub text: Text,
    pub reply: Text,
}

impl ImportRow {
    ghost use Rattle.std.specs.Prelude.{◌≡◌, IfOk};

    /// The same import in memory of its own.
    pub fn copy(&self, alloc: Global) -> Result<ImportRow, AllocError>
        ensures { IfOk result (λ copy. copy ≡ self.now) }
    {
        let text = self.text.copy(alloc)?;
        let reply = self.reply.copy(alloc)?;
        Ok(ImportRow {
            order: self.order,
            form: self.form,
            text,
            reply,
        })
    }
}

impl Clone for ImportRow {
    ghost use Rattle.std.specs.Prelude.{◌≡◌};

    ghost is_clone = { λ s t. t ≡ s };

    fn clone(&self) -> Result<ImportRow, AllocError> {
        let text = self.text.clone()?;
        let reply = self.reply.clone()?;
        Ok(ImportRow {
            order: self.order,
            form: self.form,
            text,
            reply,
        })
    }
}

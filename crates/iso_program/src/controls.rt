//! The names of the control constructs (7.8) as atoms of a store.
ghost use Rattle.std.specs.Prelude.{◌≡◌, ◌<◌, ℕ, List, length, codes, IfOk};
ghost use Rattle.std.specs.Str.{bytes_eq};
ghost use Rattle.iso_atoms.specs.Texts.{EachOnce, text_at};
ghost use Rattle.iso_prep.specs.Connectives.{connective_of};
ghost use Rattle.iso_store_core.specs.Retaining.{Retains};
ghost use Rattle.iso_program.specs.Controls.{AreControls};

use iso_atoms::Atom;
use iso_model::NoMemory;
use iso_prep::Connective;
use iso_store_core::Store;

/// The names of the control constructs, and `call`, which a variable as a goal is called by (7.6.2).
#[derive(Clone, Copy, Debug)]
pub struct Controls {
    /// `,`
    pub conjunction: Atom,
    /// `;`
    pub disjunction: Atom,
    /// `->`
    pub if_then: Atom,
    /// `!`
    pub cut: Atom,
    /// `call`
    pub call: Atom,
}

impl Controls {
    /// The atoms of these names in the store: those that they have, or new ones. The error is that memory was
    /// refused; some names may have atoms then that had none.
    pub fn new<S: Store>(store: &mut S) -> Result<Controls, NoMemory>
        ensures controls { IfOk result (AreControls (S.names store.new)) }
        ensures rest { Retains S.Store store.old store.new }
        ensures present { S.present store.new ≡ S.present store.old }
    {
        Ok(Controls {
            conjunction: store.intern(",")?,
            disjunction: store.intern(";")?,
            if_then: store.intern("->")?,
            cut: store.intern("!")?,
            call: store.intern("call")?,
        })
    }

    /// The connective of this name, where it has one.
    pub fn connective(&self, name: Atom) -> Option<Connective>
        ensures { (names : List (List ℕ)) → AreControls names self.now → EachOnce names → name < length names
            → result ≡ connective_of (text_at names name) }
    {
        if name == self.conjunction {
            return Some(Connective::And);
        }
        if name == self.disjunction {
            return Some(Connective::Or);
        }
        if name == self.if_then {
            return Some(Connective::If);
        }
        None
    }

    /// Whether this is the name of the cut.
    pub fn is_cut(&self, name: Atom) -> bool
        ensures { (names : List (List ℕ)) → AreControls names self.now → EachOnce names → name < length names
            → result ≡ bytes_eq (text_at names name) (codes "!") }
    {
        name == self.cut
    }
}

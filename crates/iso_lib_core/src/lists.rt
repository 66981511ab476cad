//! Lists as terms (6.3.5): their elements, their ends, and lists that are made of words.
ghost use Rattle.std.specs.Prelude.{◌≡◌, ◌<◌, ◌∷◌, [], slice_get, codes, true, false, IfOk, IfErr, OnOk, OnErr, Err, Some, map, length};
ghost use Rattle.std.specs.List.{All};
ghost use Rattle.iso_atoms.specs.Texts.{EachOnce};
ghost use Rattle.iso_model.specs.Terms.Trees.{Name, Apply, row};
ghost use Rattle.iso_model.specs.Search.Errors.{key, type_error};
ghost use Rattle.iso_model.specs.Terms.Lists.{nil, dot, is_nil, elements, tail, is_partial_list};
ghost use Rattle.iso_model.specs.Search.Library.{list_made};
ghost use Rattle.iso_store_core.specs.Presents.{Holds, meaning, KeepsNumbers};
ghost use Rattle.iso_store_core.specs.Retaining.{Retains, RetainsAll, Takes};
ghost use Rattle.iso_lib_core.specs.Lists.{IsPairNamed, IsPairOf, Comes, MakesList};
ghost use Rattle.iso_lib_core.specs.Replies.{IsFault};

use super::culprits;
use super::outcomes::Fault;
use iso_atoms::Atom;
use iso_model::NoMemory;
use iso_store_core::{Shape, Store, StoreFault};
use std::alloc::Global;

/// The elements that a term begins with as a list, and what stands behind them.
#[derive(Drop)]
pub struct ListParts<W: Copy> {
    pub elements: Vec<W>,
    pub tail: W,
}

/// The two arguments, where the term that the word stands for is a compound of this name and two arguments.
pub fn pair_named<S: Store>(store: &S, word: S::Word, name: &str) -> Option<(S::Word, S::Word)>
    requires word { Holds (S.present store.now) word }
    ensures parts { IsPairNamed (S.present store.now) name.now (meaning (S.present store.now) word) result }
    ensures each_once { EachOnce (S.names store.now) }
{
    let Shape::Compound(own_name, count) = store.shape(word) else {
        return None;
    };
    if count != 2 || store.text(own_name) != name {
        return None;
    }
    Some((store.arg(word, 0), store.arg(word, 1)))
}

/// The element, and what stands behind it, where the term that the word stands for is an element before another term.
fn pair<S: Store>(store: &S, word: S::Word) -> Option<(S::Word, S::Word)>
    requires word { Holds (S.present store.now) word }
    ensures { IsPairOf (S.present store.now) (meaning (S.present store.now) word) result }
{
    pair_named(store, word, ".")
}

/// What stands behind the elements that the term begins with as a list.
pub fn tail<S: Store>(store: &S, word: S::Word) -> S::Word
    requires word { Holds (S.present store.now) word }
    ensures holds { Holds (S.present store.now) result }
    ensures value { meaning (S.present store.now) result ≡ tail (meaning (S.present store.now) word) }
{
    let mut rest = word;
    while let Some((_, next)) = pair(store, rest) {
        rest = next;
    }
    rest
}

/// Whether the term that the word stands for is the empty list.
pub fn is_nil<S: Store>(store: &S, word: S::Word) -> bool
    requires { Holds (S.present store.now) word }
    ensures { result ≡ is_nil (meaning (S.present store.now) word) }
{
    match store.shape(word) {
        Shape::Atom(name) => store.text(name) == "[]",
        _ => false,
    }
}

/// Whether the term is a list, or ends in a variable as a list.
pub fn is_partial_list<S: Store>(store: &S, word: S::Word) -> bool
    requires word { Holds (S.present store.now) word }
    ensures { result ≡ is_partial_list (meaning (S.present store.now) word) }
{
    match store.shape(tail(store, word)) {
        Shape::Var(_) => true,
        Shape::Atom(name) => store.text(name) == "[]",
        _ => false,
    }
}

/// Sees that the word stands for a partial list. The errors: `type_error(list, T)`, raised by this procedure; or
/// memory was refused.
pub fn see_partial_list<S: Store>(
    alloc: Global,
    store: &S,
    word: S::Word,
    by: &str,
    by_arity: usize,
) -> Result<(), Fault>
    requires word { Holds (S.present store.now) word }
    requires by_arity { by_arity < 256 }
    ensures partial { IfOk result (λ _. is_partial_list (meaning (S.present store.now) word) ≡ true) }
    ensures other { OnErr result (is_partial_list (meaning (S.present store.now) word) ≡ false) }
    ensures fault { IfErr result (IsFault (type_error (codes "list") (meaning (S.present store.now) word) (key by.now by_arity))) }
{
    if is_partial_list(store, word) {
        return Ok(());
    }
    Err(culprits::wrong_type(alloc, store, "list", word, by, by_arity))
}

/// The elements that the term begins with as a list, and what stands behind them. The error is that memory was refused.
pub fn elements<S: Store>(
    alloc: Global,
    store: &S,
    word: S::Word,
) -> Result<ListParts<S::Word>, NoMemory>
    requires word { Holds (S.present store.now) word }
    ensures hold { IfOk result (λ r. All (λ w. Holds (S.present store.now) w) r.elements.items) }
    ensures elements { IfOk result (λ r. map (meaning (S.present store.now)) r.elements.items ≡ elements (meaning (S.present store.now) word)) }
    ensures holds { IfOk result (λ r. Holds (S.present store.now) r.tail) }
    ensures tail { IfOk result (λ r. meaning (S.present store.now) r.tail ≡ tail (meaning (S.present store.now) word)) }
{
    let mut elements = Vec::new(alloc);
    let mut rest = word;
    while let Some((first, next)) = pair(store, rest) {
        elements.push(first)?;
        rest = next;
    }
    Ok(ListParts {
        elements,
        tail: rest,
    })
}

/// The compound of an element before what stands behind it, by way of this vector. The errors: the store is full, or
/// memory was refused.
fn put_before<S: Store>(
    store: &mut S,
    name: Atom,
    first: S::Word,
    rest: S::Word,
    pair: &mut Vec<S::Word>,
) -> Result<S::Word, StoreFault>
    requires name { slice_get (S.names store.old) name ≡ Some dot }
    requires first { Holds (S.present store.old) first }
    requires rest { Holds (S.present store.old) rest }
    ensures made { IfOk result (λ w. Comes (S.present store.old) (S.present store.new) w
        (Apply dot (row (meaning (S.present store.old) first ∷ meaning (S.present store.old) rest ∷ [])))) }
    ensures numbers { OnOk result (KeepsNumbers (S.present store.old) (S.present store.new)) }
    ensures full { result ≡ Err StoreFault.Full → S.full store.new }
    ensures cells { Takes S.Store store.old store.new 3 }
    ensures rest { RetainsAll S.Store store.old store.new }
{
    pair.clear();
    pair.push(first)?;
    pair.push(rest)?;
    store.compound(name, pair.as_slice())
}

/// The empty list. The errors: the store is full, or memory was refused.
fn empty_list<S: Store>(store: &mut S) -> Result<S::Word, StoreFault>
    ensures made { IfOk result (λ w. Comes (S.present store.old) (S.present store.new) w (Name nil)) }
    ensures numbers { OnOk result (KeepsNumbers (S.present store.old) (S.present store.new)) }
    ensures full { result ≡ Err StoreFault.Full → S.full store.new }
    ensures cells { Takes S.Store store.old store.new 0 }
    ensures rest { Retains S.Store store.old store.new }
{
    let name = store.intern("[]")?;
    store.atom(name)
}

/// The list of what these words stand for. The errors: the store is full, or memory was refused.
pub fn make_list<S: Store>(
    alloc: Global,
    store: &mut S,
    words: &[S::Word],
) -> Result<S::Word, StoreFault>
    requires words { All (λ w. Holds (S.present store.old) w) words.now }
    ensures made { IfOk result (λ w. MakesList (S.present store.old) (S.present store.new) words.now w) }
    ensures numbers { OnOk result (KeepsNumbers (S.present store.old) (S.present store.new)) }
    ensures full { result ≡ Err StoreFault.Full → S.full store.new }
    ensures cells { Takes S.Store store.old store.new (list_made (length words.now)) }
    ensures rest { Retains S.Store store.old store.new }
{
    let mut list = empty_list(store)?;
    let dot = store.intern(".")?;
    let mut pair = Vec::with_capacity(alloc, 2)?;
    let mut index = words.len();
    while index > 0 {
        index -= 1;
        list = put_before(store, dot, words[index], list, &mut pair)?;
    }
    Ok(list)
}

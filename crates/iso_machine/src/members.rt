//! Members that come first, as the moves at members that are no goals have them.
ghost use Rattle.iso_model.specs.Search.RunLaws.Spans.{ComesBeyond};
ghost use Rattle.iso_machine.specs.FrameMembers.{IsMemberFirst, nodes_of};
ghost use Rattle.iso_machine.specs.MemberLaws.{member_gives, member_comes, member_costs, member_takes};

use super::framed::Framed;
use iso_cells::Cells;
use iso_control::members::Members;
use iso_frames::{Link, Next, Rest};
use iso_plain_core::bodies::Node;
use iso_plain_core::members::Todo;
use iso_search::search::Search;
use iso_store_core::Store;
use std::alloc::AllocError;

impl<S: Cells + Drop> Members<S> for Framed<S> {
    ghost nodes = { nodes_of };

    ghost leads = { IsMemberFirst };

    ghost over = { ComesBeyond };

    fn node(&self, place: usize) -> Node<S::Word> {
        self.nodes[place]
    }

    fn push_member(
        &mut self,
        todo: Todo,
        height: usize,
        behind: Option<Rest>,
    ) -> Result<Option<Rest>, AllocError> {
        self.push_member(todo, height, behind)
    }

    fn first_member(todo: Todo, height: usize, behind: Option<Rest>) -> Next<S::Word> {
        Next::Member(Link {
            todo,
            height,
            behind,
        })
    }

    fn has_room(search: &Search<S, Framed<S>>) -> bool {
        search.choices.len() < search.limit as usize
    }

    ghost led = { member_gives S.atom_word };

    ghost leading = { member_comes S.atom_word };

    ghost led_cost = { member_costs S.atom_word };

    ghost led_pending = { member_takes S.atom_word };

    ghost spans = { λ limit s full. full.1 };
}

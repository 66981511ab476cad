//! Linked members, as the moves at members that are no goals have them.
ghost use Rattle.iso_model.specs.Search.Runs.{ComesOver};
ghost use Rattle.iso_plain.specs.LinkMembers.{IsLink, nodes_of, link_gives, link_comes, link_costs, link_takes};

use super::linked::Linked;
use iso_control::members::Members;
use iso_plain_core::bodies::Node;
use iso_plain_core::members::{Link, Todo};
use iso_search::search::Search;
use iso_store_core::Store;
use std::alloc::AllocError;

impl<S: Store> Members<S> for Linked<S> {
    ghost nodes = { nodes_of };

    ghost leads = { IsLink };

    ghost over = { ComesOver };

    fn node(&self, place: usize) -> Node<S::Word> {
        self.nodes[place]
    }

    fn push_member(
        &mut self,
        todo: Todo,
        height: usize,
        behind: Option<usize>,
    ) -> Result<Option<usize>, AllocError> {
        self.push_member(todo, height, behind)
    }

    fn first_member(todo: Todo, height: usize, behind: Option<usize>) -> Link {
        Link {
            todo,
            height,
            next: behind,
        }
    }

    fn has_room(search: &Search<S, Linked<S>>) -> bool {
        search.choices.len() < search.limit as usize
    }

    ghost led = { link_gives };

    ghost leading = { link_comes };

    ghost led_cost = { link_costs };

    ghost led_pending = { link_takes };

    ghost spans = { λ limit s full. full.0 };
}

//! The requests that wait, in turn.

ghost use Rattle.std.specs.Prelude.{◌≡◌};
ghost use Rattle.std.specs.Iterator.{YieldsFirstRef, item_count};
ghost use Rattle.std.specs.List.{AllByRecursion};
ghost use Rattle.std.specs.Map.{values_of};
ghost use Rattle.slab.specs.Slab.{ContainsKey};
ghost use Rattle.redir_host.specs.inner.Requests.{requests_of};

use crate::state::request::Request;
use slab::Slab;
use std::collections::BTreeMap;
use std::collections::btree_map::Iter;
use std::marker::Model;

/// The requests of a slab in the order of their keys' numbers; contracts see it as the list of those that are left.
#[derive(Drop)]
pub struct Requests<'a> {
    requests: &'a Slab<Request>,
    order: Iter<'a, u64, usize>,
}

impl<'a> Model for Requests<'a> {
    ghost use Rattle.std.specs.Prelude.{List, ℕ};
    ghost use Rattle.std.specs.List.{AllByRecursion};
    ghost use Rattle.std.specs.Map.{values_of};
    ghost use Rattle.slab.specs.Slab.{ContainsKey};
    ghost use Rattle.redir_host.specs.declared.state.request.Request.{Request};
    ghost use Rattle.redir_host.specs.inner.Requests.{requests_of};

    ghost Value = { List Request };

    ghost view = { λ it. values_of (requests_of it.requests.now it.order) };

    ghost invariant = { λ it. AllByRecursion (λ (e : ℕ × ℕ). ContainsKey it.requests.now e.1) it.order };
}

impl<'a> Requests<'a> {
    /// Those of these keys.
    pub(crate) fn new(requests: &'a Slab<Request>, order: &'a BTreeMap<u64, usize>) -> Self
        requires { AllByRecursion (λ e. ContainsKey requests.now e.1) order.now.entries }
        ensures { result ≡ values_of (requests_of requests.now order.now.entries) }
    {
        Requests {
            requests,
            order: order.iter(),
        }
    }
}

impl<'a> Iterator for Requests<'a> {
    type Item = &'a Request;

    ghost next_gives = { YieldsFirstRef (λ rest. rest) };

    ghost remaining = { item_count (λ rest. rest) };

    fn next(&mut self) -> Option<&'a Request> {
        let (_, key) = self.order.next()?;
        Some(&self.requests[*key])
    }
}

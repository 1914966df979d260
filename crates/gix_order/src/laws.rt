//! Laws of the orders of a list of commits.
//!
//! The functions here do nothing. The contract of each is the law.

ghost use Rattle.gix_order.specs.OrderLaws.{NoneTwice, ChildrenFirst, NoneLost, OrderIsUnique};

/// States that no commit comes twice.
pub fn none_twice()
    // A list in an order has places of commits, and none twice.
    ensures { NoneTwice }
{}

/// States that no commit comes before one of its children.
pub fn children_first()
    // In a list in an order, each child of a commit stands before it.
    ensures { ChildrenFirst }
{}

/// States that every commit comes which neither is its own ancestor nor has such a descendant.
pub fn none_lost()
    // A list in an order has exactly those commits of the list that are on no circle and behind
    // none (`IsBehindNoCircle`).
    ensures { NoneLost }
{}

/// States that a list of commits has at most one list in an order.
pub fn order_is_unique()
    // Two lists in an order of the same commits are equal.
    ensures { OrderIsUnique }
{}

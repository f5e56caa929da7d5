//! The before-images of a transaction that ends.

ghost use Rattle.std.specs.Prelude.{◌≡◌, [], map, reverse};
ghost use Rattle.title_store.specs.{Loans.{IsFirst, IsLast}, Plants.{SameContent}};
ghost use Rattle.title_desk.specs.Images.{InTurn, IsRestored, without_all};

use crate::open_transactions::OpenTransactions;
use title_store::Store;

/// Puts images back, the newest first.
pub(crate) fn restore_all<S: Store>(store: &mut S, mut images: Vec<S::Image>)
    requires able { InTurn IsLast (map S.number (reverse images.items)) (S.out store.old) }
    ensures content { IsRestored (S.declared store.old) (map S.number (reverse images.items)) (S.out store.old) (S.content store.old)
        (S.content store.new) }
    ensures declared { S.declared store.new ≡ S.declared store.old }
    ensures out { S.out store.new ≡ without_all (map S.number (reverse images.items)) (S.out store.old) }
{
    while let Some(image) = images.pop() {
        store.restore(image);
    }
}

/// Lets images go, the oldest first.
pub(crate) fn forget_all<S: Store>(store: &mut S, mut images: Vec<S::Image>)
    requires able { InTurn IsFirst (map S.number images.items) (S.out store.old) }
    ensures content { SameContent (S.content store.old) (S.content store.new) }
    ensures declared { S.declared store.new ≡ S.declared store.old }
    ensures out { S.out store.new ≡ without_all (map S.number images.items) (S.out store.old) }
{
    images.reverse();
    while let Some(image) = images.pop() {
        store.forget(image);
    }
}

/// Tidies the store up where nobody is open.
pub(crate) fn tidy_up<S: Store, I: Store>(store: &mut S, transactions: &OpenTransactions<I>)
    requires idle { transactions.now ≡ [] → S.out store.old ≡ [] }
    ensures content { SameContent (S.content store.old) (S.content store.new) }
    ensures declared { S.declared store.new ≡ S.declared store.old }
    ensures out { S.out store.new ≡ S.out store.old }
{
    if transactions.is_empty() {
        store.tidy();
    }
}

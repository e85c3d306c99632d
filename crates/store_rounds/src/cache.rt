//! The cache of accounts: what is known in memory of 4096 accounts at most.

ghost use Rattle.std.specs.Prelude.{◌≡◌, [], IfSome};
ghost use Rattle.store_rounds.specs.Kept.{kept_of, SetsKnown};

use account_rules::{Account, Name};
use lru::LruCache;
use std::alloc::Global;
use std::hash::{Hash, Hasher};
use std::num::NonZeroUsize;

/// How many accounts the cache has at most.
const MOST_KEPT: usize = 4096;

/// What the cache has of an account. `None` is not known.
#[derive(Clone, Copy)]
pub(crate) struct Known {
    /// Its row.
    pub row: Option<Account>,
    /// What its jobs reserve.
    pub reserved: Option<u64>,
    /// What its jobs were charged.
    pub charged: Option<u64>,
    /// How many of its jobs have not ended.
    pub unfinished: Option<u64>,
}

/// An account's name, as the key of the cache.
#[derive(Clone, Copy)]
pub(crate) struct Key {
    pub name: Name,
}

impl PartialEq for Key {
    ghost use Rattle.std.specs.Prelude.{bytes_eq};
    ghost use Rattle.std.specs.Cmp.Rules.{comparing};
    ghost use Rattle.std.proofs.Common.{rules};

    ghost eq = { λ x y. bytes_eq x.name y.name };

    ghost laws = { Prim.search (comparing, rules) };

    fn eq(&self, other: &Key) -> bool {
        self.name.bytes() == other.name.bytes()
    }
}

impl Eq for Key {
    ghost use Rattle.std.specs.Cmp.Rules.{comparing};
    ghost use Rattle.std.proofs.Common.{rules};

    ghost laws = { Prim.search (comparing, rules) };
}

impl Hash for Key {
    ghost use Rattle.std.specs.Prelude.{◌∷◌, []};
    ghost use Rattle.std.specs.Cmp.Rules.{hashing};
    ghost use Rattle.std.proofs.Common.{rules};

    ghost hash_input = { λ key. key.name ∷ [] };

    ghost respects_eq = { Prim.search (hashing, rules) };

    fn hash<H: Hasher>(&self, state: &mut H) {
        state.write(self.name.bytes());
    }
}

/// The cache: what is known of each account, by name. Where it is full, the account that was put in
/// longest ago goes out.
pub(crate) type Accounts = LruCache<Key, Known>;

/// An empty cache. `None` where there is no memory for one.
pub(crate) fn no_accounts(alloc: Global) -> Option<Accounts>
    ensures { IfSome result (λ accounts. accounts.entries ≡ []) }
{
    let most = NonZeroUsize::new(MOST_KEPT)?;
    LruCache::sparse(alloc, most).ok()
}

/// What the cache has of the account.
pub(crate) fn find(accounts: &Accounts, account: Name) -> Option<Known>
    ensures { result ≡ kept_of accounts.now.entries account }
{
    accounts.peek(&Key { name: account }).copied()
}

/// Puts in what is known of the account, in the place of what was known before. Where there is no
/// memory nothing is put in.
pub(crate) fn set(accounts: &mut Accounts, account: Name, known: Known)
    ensures { SetsKnown account known accounts.old.entries accounts.new.entries }
{
    let _before = accounts.put(Key { name: account }, known);
}

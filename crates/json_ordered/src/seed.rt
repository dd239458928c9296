//! How names are hashed, so that nobody can pick names that fall together.

ghost use Rattle.std.specs.Prelude.{◌≡◌, map};
ghost use Rattle.json_ordered.specs.Docs.{pair_of};
ghost use Rattle.json_ordered.specs.JsonSeeds.{seed_of};

use crate::doc::Doc;
use path_name::Name;
use sha2::{Digest, Sha256};
use std::alloc::AllocError;
use std::hash::{BuildHasher, DefaultHasher, Hasher};

/// Makes SipHash-1-3 hashers that begin with a seed.
#[derive(Drop)]
pub(crate) struct Seeded {
    start: DefaultHasher,
}

impl BuildHasher for Seeded {
    type Hasher = DefaultHasher;

    ghost build_hasher = { λ seeded. seeded.start };

    fn build_hasher(&self) -> DefaultHasher {
        self.start
    }
}

impl Seeded {
    /// Hashers whose seed is the SHA-256 of all these names. Who wants names that fall together has to
    /// have them all before the seed is known, and another name makes another seed.
    pub(crate) fn by_names(members: &[(Name, Doc)]) -> Seeded
        ensures { result.start ≡ seed_of (map pair_of members.now) }
    {
        let mut names = Sha256::new();
        for member in members {
            names.update(member.0.as_slice());
        }
        let digest = names.finalize();
        let mut start = DefaultHasher::new();
        start.write(digest.as_slice());
        Seeded { start }
    }
}

// Distributions, their order, and the laws that the inference stands on.

ghost use Rattle.std.specs.Prelude.{◌≡◌, IsTrue};
ghost use Rattle.hp_lattice.specs.declared.dist.Dist.{Dist as SpecDist};
ghost use Rattle.hp_lattice.specs.declared.dist.Dist.TheVariants.{Rep, Var, Block};
ghost use Rattle.hp_lattice.specs.Lattice.{is_below, met, raised, IsGreatestBelow};

use hp_word::sequence::Sequence;

/// How an array lies on the ranks. They are ordered, `Rep` being the least and `Block` the greatest.
#[derive(Clone, Copy, Debug, PartialEq, Eq)]
pub enum Dist {
    /// Whole on each rank.
    Rep,
    /// In pieces of any lengths, in rank order.
    Var,
    /// In blocks as even as can be, the longer ones first.
    Block,
}

/// The distributions of arrays, one for each, by their numbers.
#[derive(Debug, Drop)]
pub struct Dists {
    pub list: Sequence<Dist>,
}

/// Whether a distribution is at most another.
pub fn below(a: Dist, b: Dist) -> bool
    ensures { result ≡ is_below a b }
{
    match (a, b) {
        (Dist::Rep, _) => true,
        (Dist::Var, Dist::Rep) => false,
        (Dist::Var, _) => true,
        (Dist::Block, Dist::Block) => true,
        (Dist::Block, _) => false,
    }
}

/// The greatest of the distributions that are at most both.
pub fn meet(a: Dist, b: Dist) -> Dist
    ensures exact { result ≡ met a b }
    ensures greatest { IsGreatestBelow a b result }
{
    if below(a, b) { a } else { b }
}

/// The greatest distribution that an operation which deals an array out anew leaves it: whole stays whole, and what
/// lies in pieces may lie in blocks.
pub fn up(a: Dist) -> Dist
    ensures { result ≡ raised a }
{
    match a {
        Dist::Rep => Dist::Rep,
        Dist::Var | Dist::Block => Dist::Block,
    }
}

/// The laws of the order: it is one, any two distributions stand in it one way or the other, `meet` is what the order says
/// of both, and `up` keeps the order and is idempotent.
pub fn lattice_laws()
    ensures reflexive { (a : SpecDist) → IsTrue (is_below a a) }
    ensures antisymmetric { (a b : SpecDist) → IsTrue (is_below a b) → IsTrue (is_below b a) → a ≡ b }
    ensures transitive { (a b c : SpecDist) → IsTrue (is_below a b) → IsTrue (is_below b c) → IsTrue (is_below a c) }
    ensures least { (a : SpecDist) → IsTrue (is_below Rep a) }
    ensures greatest { (a : SpecDist) → IsTrue (is_below a Block) }
    ensures meets { (a b : SpecDist) → IsGreatestBelow a b (met a b) }
    ensures commutative { (a b : SpecDist) → met a b ≡ met b a }
    ensures associative { (a b c : SpecDist) → met (met a b) c ≡ met a (met b c) }
    ensures idempotent { (a : SpecDist) → met a a ≡ a }
    ensures rises { (a b : SpecDist) → IsTrue (is_below a b) → IsTrue (is_below (raised a) (raised b)) }
    ensures raises { (a : SpecDist) → IsTrue (is_below a (raised a)) }
    ensures once { (a : SpecDist) → raised (raised a) ≡ raised a }
{}

use std :: alloc :: AllocError ;
use std :: alloc :: Allocator ;
use std :: alloc :: Global ;
use std :: fmt ;
use std :: hash :: BuildHasher ;
use std :: hash :: BuildHasherDefault ;
use std :: hash :: FoldHasher ;
use std :: hash :: Hash ;
use std :: iter :: FusedIterator ;
use std :: marker :: Model ;
use super :: IndexSet ;
use super :: Iter ;
# [ derive ( Drop ) ] pub struct Difference < 'a , T : Eq + Hash , S : BuildHasher = BuildHasherDefault < FoldHasher > , A : Allocator = Global , > { iter : Iter < 'a , T > , other : & 'a IndexSet < T , S , A > , }
# [ derive ( Drop ) ] pub struct Intersection < 'a , T : Eq + Hash , S : BuildHasher = BuildHasherDefault < FoldHasher > , A : Allocator = Global , > { iter : Iter < 'a , T > , other : & 'a IndexSet < T , S , A > , }
# [ derive ( Drop ) ] pub struct SymmetricDifference < 'a , T : Eq + Hash , S : BuildHasher = BuildHasherDefault < FoldHasher > , A : Allocator = Global , > { first : Difference < 'a , T , S , A > , second : Difference < 'a , T , S , A > , }
# [ derive ( Drop ) ] pub struct Union < 'a , T : Eq + Hash , S : BuildHasher = BuildHasherDefault < FoldHasher > , A : Allocator = Global , > { first : Iter < 'a , T > , second : Difference < 'a , T , S , A > , }
# [ read_as = "0701230427e5705cd3bd4c66dd2cb8cd66b1af4804b21f71e3b3aeef5eec8d77" ] impl < 'a , T : Eq + Hash , S : BuildHasher , A : Allocator > Clone for SymmetricDifference < 'a , T , S , A > as SymmetricDifferenceClone {
    ghost is_clone = { λ s r. r ≡ s };
    ghost is_infallible = { λ _. ⊤ };
fn clone ( & self ) -> Result < Self , AllocError > ;
}
# [ read_as = "11676659968774ef9c0c93bbbae7a7b0f26b6c3f3fc7318d808ff5d0ec194a14" ] impl < 'a , T : Eq + Hash , S : BuildHasher , A : Allocator > FusedIterator for Union < 'a , T , S , A > as UnionFusedIterator {
}
# [ read_as = "47c697e1fb4d4155e9ec6d7a3ee6e6459a9185b41fd894528288e9e4ce26b598" ] impl < 'a , T : Eq + Hash , S : BuildHasher , A : Allocator > DoubleEndedIterator for Intersection < 'a , T , S , A > as IntersectionDoubleEndedIterator {
    ghost next_back_gives = { TakesLast deref };
fn next_back ( & mut self ) -> Option < & 'a T > ;
}
# [ read_as = "4de49d646a2eaf040f2ec663f7e82a51b039f60ad36c3c22b1ced2f5a3482b76" ] impl < 'a , T : Eq + Hash , S : BuildHasher , A : Allocator > Iterator for Union < 'a , T , S , A > as UnionIterator {
type Item = & 'a T ;
    ghost next_gives = { TakesFirst deref };
    ghost remaining = { λ s. at_most (length s) };
fn next ( & mut self ) -> Option < & 'a T > ;
fn size_hint ( & self ) -> ( usize , Option < usize > ) ;
}
# [ read_as = "61ed163813e2d6da37e1b562861acf65db8989142f8e5e7b2431fad323f3d342" ] impl < 'a , T : Eq + Hash , S : BuildHasher , A : Allocator > DoubleEndedIterator for Difference < 'a , T , S , A > as DifferenceDoubleEndedIterator {
    ghost next_back_gives = { TakesLast deref };
fn next_back ( & mut self ) -> Option < & 'a T > ;
}
# [ read_as = "80615b331a9d56eac568624fae27185c44463afbdccd30d035d0e8bdcef273b1" ] impl < 'a , T : Eq + Hash + fmt :: Debug , S : BuildHasher , A : Allocator > fmt :: Debug for Union < 'a , T , S , A > as UnionDebug {
fn fmt < W : fmt :: Write > ( & self , f : & mut fmt :: Formatter < W > ) -> fmt :: Result ;
}
# [ read_as = "895fc67b001c84d47cefa54f61cb5fc6c79c54311fca3bbca3d80a42d53eee9c" ] impl < 'a , T : Eq + Hash , S : BuildHasher , A : Allocator > Iterator for Intersection < 'a , T , S , A > as IntersectionIterator {
type Item = & 'a T ;
    ghost next_gives = { TakesFirst deref };
    ghost remaining = { λ s. at_most (length s) };
fn next ( & mut self ) -> Option < & 'a T > ;
fn size_hint ( & self ) -> ( usize , Option < usize > ) ;
}
# [ read_as = "a08c83cb9e312a365f638fe428ec80d8788eb14c53a940b984de2cb530a6ebcf" ] impl < 'a , T : Eq + Hash , S : BuildHasher , A : Allocator > FusedIterator for Difference < 'a , T , S , A > as DifferenceFusedIterator {
}
# [ read_as = "aa7343e1a2c133650268c0625de220462990cf1a3a3b7350ed0c126362b2a53f" ] impl < 'a , T : Eq + Hash , S : BuildHasher , A : Allocator > FusedIterator for SymmetricDifference < 'a , T , S , A > as SymmetricDifferenceFusedIterator {
}
# [ read_as = "aa9d238c06bcc8aebefda0fdf6585dfbbcb6ce8387bcdef6d13293ca30bb1020" ] impl < 'a , T : Eq + Hash + fmt :: Debug , S : BuildHasher , A : Allocator > fmt :: Debug for SymmetricDifference < 'a , T , S , A > as SymmetricDifferenceDebug {
fn fmt < W : fmt :: Write > ( & self , f : & mut fmt :: Formatter < W > ) -> fmt :: Result ;
}
# [ read_as = "b0e8e7913c4e5eae57c96f3f6b2cdde19557b36d5dffde0827929274c455b386" ] impl < 'a , T : Eq + Hash , S : BuildHasher , A : Allocator > Iterator for Difference < 'a , T , S , A > as DifferenceIterator {
type Item = & 'a T ;
    ghost next_gives = { TakesFirst deref };
    ghost remaining = { λ s. at_most (length s) };
fn next ( & mut self ) -> Option < & 'a T > ;
fn size_hint ( & self ) -> ( usize , Option < usize > ) ;
}
# [ read_as = "bcef33477853528af969edb6b30d5a4264bf6e7efe980e2c4594c0f4278eca22" ] impl < 'a , T : Eq + Hash , S : BuildHasher , A : Allocator > Iterator for SymmetricDifference < 'a , T , S , A > as SymmetricDifferenceIterator {
type Item = & 'a T ;
    ghost next_gives = { TakesFirst deref };
    ghost remaining = { λ s. at_most (length s) };
fn next ( & mut self ) -> Option < & 'a T > ;
fn size_hint ( & self ) -> ( usize , Option < usize > ) ;
}
# [ read_as = "c7b2b5057f01f2fb1917bfbc27079246587412bd502ac79d1f5e451371ff728a" ] impl < 'a , T : Eq + Hash , S : BuildHasher , A : Allocator > Clone for Difference < 'a , T , S , A > as DifferenceClone {
    ghost is_clone = { λ s r. r ≡ s };
    ghost is_infallible = { λ _. ⊤ };
fn clone ( & self ) -> Result < Self , AllocError > ;
}
# [ read_as = "c9d0a421393831a61538548f9c46a17c394eaac3a85737bf77f4ffaa5cbf725f" ] impl < 'a , T : Eq + Hash + fmt :: Debug , S : BuildHasher , A : Allocator > fmt :: Debug for Intersection < 'a , T , S , A > as IntersectionDebug {
fn fmt < W : fmt :: Write > ( & self , f : & mut fmt :: Formatter < W > ) -> fmt :: Result ;
}
# [ read_as = "cd3300ed512e1dd0e78d03625885bc9d991f1495859f25a7c791b08cd371423f" ] impl < 'a , T : Eq + Hash + fmt :: Debug , S : BuildHasher , A : Allocator > fmt :: Debug for Difference < 'a , T , S , A > as DifferenceDebug {
fn fmt < W : fmt :: Write > ( & self , f : & mut fmt :: Formatter < W > ) -> fmt :: Result ;
}
# [ read_as = "ceb2c83e05be77978b5629771c75fe38fb04026eef3dc2f7b81625922c16568f" ] impl < 'a , T : Eq + Hash , S : BuildHasher , A : Allocator > Clone for Intersection < 'a , T , S , A > as IntersectionClone {
    ghost is_clone = { λ s r. r ≡ s };
    ghost is_infallible = { λ _. ⊤ };
fn clone ( & self ) -> Result < Self , AllocError > ;
}
# [ read_as = "d3bf67b67c6087715fbc1ac1e11fbaf78e9730b5b237131c926ec4bac78284e6" ] impl < 'a , T : Eq + Hash , S : BuildHasher , A : Allocator > FusedIterator for Intersection < 'a , T , S , A > as IntersectionFusedIterator {
}
# [ read_as = "d7fd2af54dcf49f4f445b708e5ed38f176236d5c7c4664b49316254cd83e1c09" ] impl < 'a , T : Eq + Hash , S : BuildHasher , A : Allocator > DoubleEndedIterator for SymmetricDifference < 'a , T , S , A > as SymmetricDifferenceDoubleEndedIterator {
    ghost next_back_gives = { TakesLast deref };
fn next_back ( & mut self ) -> Option < & 'a T > ;
}
# [ read_as = "e2c4294f130b6a43ac7f9d310410026fcfaa8735407382b2a7e9cf7cc1db1579" ] impl < 'a , T : Eq + Hash , S : BuildHasher , A : Allocator > DoubleEndedIterator for Union < 'a , T , S , A > as UnionDoubleEndedIterator {
    ghost next_back_gives = { TakesLast deref };
fn next_back ( & mut self ) -> Option < & 'a T > ;
}
# [ read_as = "f39d02129768e48e7e333fb9cdaf194b4aec9f05d51847e4d264c9f0fe46cebc" ] impl < 'a , T : Eq + Hash , S : BuildHasher , A : Allocator > Clone for Union < 'a , T , S , A > as UnionClone {
    ghost is_clone = { λ s r. r ≡ s };
    ghost is_infallible = { λ _. ⊤ };
fn clone ( & self ) -> Result < Self , AllocError > ;
}
impl < 'a , T : Eq + Hash , S : BuildHasher , A : Allocator > Model for Difference < 'a , T , S , A > {
    ghost use Rattle.std.specs.Prelude.{List, not, filter};
    ghost use Rattle.indexmap.specs.IndexSet.{contains};
    ghost Value = { List T };
    ghost view = { λ a. filter (λ k. not (contains T.eq a.other.now k)) a.iter };
}
impl < 'a , T : Eq + Hash , S : BuildHasher , A : Allocator > Model for Intersection < 'a , T , S , A > {
    ghost use Rattle.std.specs.Prelude.{List, filter};
    ghost use Rattle.indexmap.specs.IndexSet.{contains};
    ghost Value = { List T };
    ghost view = { λ a. filter (contains T.eq a.other.now) a.iter };
}
impl < 'a , T : Eq + Hash , S : BuildHasher , A : Allocator > Model for SymmetricDifference < 'a , T , S , A > {
    ghost use Rattle.std.specs.Prelude.{List, ◌++◌};
    ghost Value = { List T };
    ghost view = { λ a. a.first ++ a.second };
}
impl < 'a , T : Eq + Hash , S : BuildHasher , A : Allocator > Model for Union < 'a , T , S , A > {
    ghost use Rattle.std.specs.Prelude.{List, ◌++◌};
    ghost Value = { List T };
    ghost view = { λ a. a.first ++ a.second };
}
impl < T : Eq + Hash , S : BuildHasher , A : Allocator > IndexSet < T , S , A > {
pub fn difference < 'a > ( & 'a self , other : & 'a Self ) -> Difference < 'a , T , S , A >
        ensures rest { }
        ensures members { }
        ensures unique { }
        ensures bound { }
        ensures fits { }
        ensures runs { }
        ensures runs_back { } ;
pub fn intersection < 'a > ( & 'a self , other : & 'a Self ) -> Intersection < 'a , T , S , A >
        ensures rest { }
        ensures members { }
        ensures unique { }
        ensures bound { }
        ensures fits { }
        ensures runs { }
        ensures runs_back { } ;
pub fn is_disjoint ( & self , other : & Self ) -> bool
        ensures { } ;
pub fn is_subset ( & self , other : & Self ) -> bool
        ensures { } ;
pub fn is_superset ( & self , other : & Self ) -> bool
        ensures { } ;
pub fn symmetric_difference < 'a > ( & 'a self , other : & 'a Self ) -> SymmetricDifference < 'a , T , S , A >
        ensures rest { }
        ensures members { }
        ensures unique { }
        ensures bound { }
        ensures fits { }
        ensures runs { }
        ensures runs_back { } ;
pub fn union < 'a > ( & 'a self , other : & 'a Self ) -> Union < 'a , T , S , A >
        ensures rest { }
        ensures members { }
        ensures unique { }
        ensures bound { }
        ensures fits { }
        ensures runs { }
        ensures runs_back { } ;
}

use std :: alloc :: AllocError ;
use std :: alloc :: Allocator ;
use std :: alloc :: Global ;
use std :: fmt ;
use std :: iter :: FusedIterator ;
use std :: marker :: Model ;
use std :: ops :: Index ;
use std :: slice ;
use std :: vec ;
use super :: Slice ;
# [ derive ( Drop ) ] pub struct IntoIter < K , V , A : Allocator = Global > { keys : vec :: IntoIter < K , A > , vals : vec :: IntoIter < V , A > , }
# [ derive ( Drop ) ] pub struct IntoKeys < K , V , A : Allocator = Global > { inner : IntoIter < K , V , A > , }
# [ derive ( Drop ) ] pub struct IntoValues < K , V , A : Allocator = Global > { inner : IntoIter < K , V , A > , }
# [ derive ( Drop ) ] pub struct Iter < 'a , K , V > { keys : slice :: Iter < 'a , K > , vals : slice :: Iter < 'a , V > , }
# [ derive ( Drop ) ] pub struct Keys < 'a , K , V > { inner : slice :: Iter < 'a , K > , marker : & 'a [ V ] , }
# [ derive ( Drop ) ] pub struct Values < 'a , K , V > { inner : slice :: Iter < 'a , V > , marker : & 'a [ K ] , }
# [ read_as = "0aeecac0c6099282f46aafc6eb5aefd472d17321268f3e66d47920ee3d5f60ce" ] impl < K : Drop , V : Drop , A : Allocator > FusedIterator for IntoIter < K , V , A > as IntoIterFusedIterator {
}
# [ read_as = "158e7d5cd13a36220cda89cca7d0e11cb6da400eeefd86f1037cf7e34bf59213" ] impl < 'a , K , V > Clone for Values < 'a , K , V > as ValuesClone {
    ghost is_clone = { λ s r. r ≡ s };
    ghost is_infallible = { λ _. ⊤ };
fn clone ( & self ) -> Result < Self , AllocError > ;
}
# [ read_as = "2173a3cb3e7e9f188961587d88f1f69b325bd61749ea9e801dc810a984238995" ] impl < K : Drop , V : Drop , A : Allocator > ExactSizeIterator for IntoKeys < K , V , A > as IntoKeysExactSizeIterator {
fn len ( & self ) -> usize ;
}
# [ read_as = "2219f14fb93dcfd8060a20eca26ca01eb0cab25647ed4bc0f431c1b1c490fadc" ] impl < K : Drop , V : Drop , A : Allocator > DoubleEndedIterator for IntoIter < K , V , A > as IntoIterDoubleEndedIterator {
    ghost next_back_gives = { TakesLast (λ p. p) };
fn next_back ( & mut self ) -> Option < ( K , V ) > ;
}
# [ read_as = "2786f6abdbede106908587dbbfd922588e5e6ea46399c3673beee4607cd151ea" ] impl < K : Drop , V : Drop , A : Allocator > Iterator for IntoIter < K , V , A > as IntoIterIterator {
type Item = ( K , V ) ;
    ghost next_gives = { TakesFirst (λ p. p) };
    ghost remaining = { λ s. at_most (length s) };
fn next ( & mut self ) -> Option < ( K , V ) > ;
fn size_hint ( & self ) -> ( usize , Option < usize > ) ;
}
# [ read_as = "3746ff5dd3e57ed59b7e095389bd1ae267f30b4e693b43f26ff5138a62c84718" ] impl < 'a , K , V > ExactSizeIterator for Iter < 'a , K , V > as IterExactSizeIterator {
fn len ( & self ) -> usize ;
}
# [ read_as = "3ac7a98613a0647fa5fed519e7f210fc735f1b3a8e34b3555d4c7c02214277c0" ] impl < 'a , K , V > Iterator for Keys < 'a , K , V > as KeysIterator {
type Item = & 'a K ;
    ghost next_gives = { TakesFirst deref };
    ghost remaining = { λ s. at_most (length s) };
fn next ( & mut self ) -> Option < & 'a K > ;
fn size_hint ( & self ) -> ( usize , Option < usize > ) ;
}
# [ read_as = "459162a3c8c04defcca5711708b5f6ada1bdc2b995aa5b191a900fb752846759" ] impl < K : Drop , V : Drop , A : Allocator > DoubleEndedIterator for IntoKeys < K , V , A > as IntoKeysDoubleEndedIterator {
    ghost next_back_gives = { TakesLast (λ k. k) };
fn next_back ( & mut self ) -> Option < K > ;
}
# [ read_as = "533a1b6d615e4dd0e23f8a4a88fc2adaf06ffb4356a1b837a1730d96cf1fad81" ] impl < 'a , K , V > ExactSizeIterator for Values < 'a , K , V > as ValuesExactSizeIterator {
fn len ( & self ) -> usize ;
}
# [ read_as = "580ce8f1ba886d4aa97aefbd449c798dbb7a5f78a53db113d61552250129d194" ] impl < K : Drop , V : Drop , A : Allocator > FusedIterator for IntoKeys < K , V , A > as IntoKeysFusedIterator {
}
# [ read_as = "5840315dd62cc555dc54f2b8555e9865c4d65593bf5ae251bb1bd5317c49f53c" ] impl < K : Drop , V : Drop , A : Allocator > FusedIterator for IntoValues < K , V , A > as IntoValuesFusedIterator {
}
# [ read_as = "584b696a6ab349aecac60585a1f7816a29d5ac361987671666c8405b0eba5e53" ] impl < 'a , K , V : fmt :: Debug > fmt :: Debug for Values < 'a , K , V > as ValuesDebug {
fn fmt < W : fmt :: Write > ( & self , f : & mut fmt :: Formatter < W > ) -> fmt :: Result ;
}
# [ read_as = "5db38ef4a0ed75550a8704ce6293618ecdb0463b9a3645a92937d25257784ba4" ] impl < 'a , K , V > Clone for Iter < 'a , K , V > as IterClone {
    ghost is_clone = { λ s r. r ≡ s };
    ghost is_infallible = { λ _. ⊤ };
fn clone ( & self ) -> Result < Self , AllocError > ;
}
# [ read_as = "6488a308860a773e1ad2da95530a1c60746991d004e095b3d8fb4c3b8fa28164" ] impl < K : Drop , V : Drop , A : Allocator > Iterator for IntoValues < K , V , A > as IntoValuesIterator {
type Item = V ;
    ghost next_gives = { TakesFirst (λ v. v) };
    ghost remaining = { λ s. at_most (length s) };
fn next ( & mut self ) -> Option < V > ;
fn size_hint ( & self ) -> ( usize , Option < usize > ) ;
}
# [ read_as = "65b544d70be14303830feeb2c21b2c8737eea517bf719c49f0d9f1d137da4c10" ] impl < K : Drop , V : Drop , A : Allocator > ExactSizeIterator for IntoIter < K , V , A > as IntoIterExactSizeIterator {
fn len ( & self ) -> usize ;
}
# [ read_as = "6a69265153f6fd5443c6e21372205028e65483f3a71774cb172abf60b7691f9f" ] impl < 'a , K , V > Index < usize > for Keys < 'a , K , V > as KeysIndexUsize {
type Output = K ;
    ghost can_index = { λ s i. i < length s };
    ghost index_gives = { λ s i k. slice_get s i ≡ Some k };
fn index ( & self , index : usize ) -> & K ;
}
# [ read_as = "80c6c6d5377ab289953abd4251457cf32a8eaacb85ae119a48b564a5ee4c4daf" ] impl < 'a , K , V > DoubleEndedIterator for Iter < 'a , K , V > as IterDoubleEndedIterator {
    ghost next_back_gives = { TakesLast deref_pair };
fn next_back ( & mut self ) -> Option < ( & 'a K , & 'a V ) > ;
}
# [ read_as = "9526c13b2c77f5b1a3583fc9d74e06c91a7043f3ece942bd692e81c5a158a80c" ] impl < 'a , K , V > FusedIterator for Values < 'a , K , V > as ValuesFusedIterator {
}
# [ read_as = "9701bd06fad89629a646a21dc65d260430176126f90be6367135fef99885b3d7" ] impl < 'a , K , V > DoubleEndedIterator for Values < 'a , K , V > as ValuesDoubleEndedIterator {
    ghost next_back_gives = { TakesLast deref };
fn next_back ( & mut self ) -> Option < & 'a V > ;
}
# [ read_as = "a2181be67de2276aae89687cd5ac5a0691d37c7de289cd423a972517de4da1c4" ] impl < 'a , K , V > Iterator for Iter < 'a , K , V > as IterIterator {
type Item = ( & 'a K , & 'a V ) ;
    ghost next_gives = { TakesFirst deref_pair };
    ghost remaining = { λ s. at_most (length s) };
fn next ( & mut self ) -> Option < ( & 'a K , & 'a V ) > ;
fn size_hint ( & self ) -> ( usize , Option < usize > ) ;
}
# [ read_as = "a4a528701f005bc78c8096209041b89856d90d5c705f77fc0b51b92ed5b2de1d" ] impl < 'a , K , V > Clone for Keys < 'a , K , V > as KeysClone {
    ghost is_clone = { λ s r. r ≡ s };
    ghost is_infallible = { λ _. ⊤ };
fn clone ( & self ) -> Result < Self , AllocError > ;
}
# [ read_as = "af4360eb3e82c9e4f5d2922f4779596497d279b67c1312f84064c280d0787ed5" ] impl < 'a , K , V > DoubleEndedIterator for Keys < 'a , K , V > as KeysDoubleEndedIterator {
    ghost next_back_gives = { TakesLast deref };
fn next_back ( & mut self ) -> Option < & 'a K > ;
}
# [ read_as = "b2cda67afa383a3f12c3575e58bedf3558c031cca78913d010b056610a794990" ] impl < 'a , K , V > ExactSizeIterator for Keys < 'a , K , V > as KeysExactSizeIterator {
fn len ( & self ) -> usize ;
}
# [ read_as = "b3c0da31131176036d4f22afb8e590408f5882240308a147e866418dc68fdcb1" ] impl < 'a , K : fmt :: Debug , V > fmt :: Debug for Keys < 'a , K , V > as KeysDebug {
fn fmt < W : fmt :: Write > ( & self , f : & mut fmt :: Formatter < W > ) -> fmt :: Result ;
}
# [ read_as = "b75ca330f6a64aadaeaf38a8ee4ccc663bffccbbd9ae024c799300fa0700884c" ] impl < 'a , K : fmt :: Debug , V : fmt :: Debug > fmt :: Debug for Iter < 'a , K , V > as IterDebug {
fn fmt < W : fmt :: Write > ( & self , f : & mut fmt :: Formatter < W > ) -> fmt :: Result ;
}
# [ read_as = "e758ed41c8b44655cca8daa24f307a00ae78033056a20b004f46fc146e5cde8b" ] impl < 'a , K , V > FusedIterator for Iter < 'a , K , V > as IterFusedIterator {
}
# [ read_as = "e7d4ddd0c1c78336d6ad834758f33dd3ced8d1aff6a3456c3d18a93cea786247" ] impl < 'a , K , V > Iterator for Values < 'a , K , V > as ValuesIterator {
type Item = & 'a V ;
    ghost next_gives = { TakesFirst deref };
    ghost remaining = { λ s. at_most (length s) };
fn next ( & mut self ) -> Option < & 'a V > ;
fn size_hint ( & self ) -> ( usize , Option < usize > ) ;
}
# [ read_as = "f05c8be4caa9144a5faae38cde7fcdb124a2c7f2c741ab31746e46ccb88b6c95" ] impl < 'a , K , V > FusedIterator for Keys < 'a , K , V > as KeysFusedIterator {
}
# [ read_as = "f849bcdafe4e9ad37d5fe1fd42b7b091a30f51009655a80ef071d51737fc8c34" ] impl < K : Drop , V : Drop , A : Allocator > DoubleEndedIterator for IntoValues < K , V , A > as IntoValuesDoubleEndedIterator {
    ghost next_back_gives = { TakesLast (λ v. v) };
fn next_back ( & mut self ) -> Option < V > ;
}
# [ read_as = "f853f7d1949654cb2017435f8b6073f57c952df948e79da7983afb6f445a8c71" ] impl < K : Drop , V : Drop , A : Allocator > Iterator for IntoKeys < K , V , A > as IntoKeysIterator {
type Item = K ;
    ghost next_gives = { TakesFirst (λ k. k) };
    ghost remaining = { λ s. at_most (length s) };
fn next ( & mut self ) -> Option < K > ;
fn size_hint ( & self ) -> ( usize , Option < usize > ) ;
}
# [ read_as = "fa4e5d84dc556f672217002bdb3b2c1107da17c7aa4aff05e987f6d912cd90d9" ] impl < K : Drop , V : Drop , A : Allocator > ExactSizeIterator for IntoValues < K , V , A > as IntoValuesExactSizeIterator {
fn len ( & self ) -> usize ;
}
impl < 'a , K , V > Iter < 'a , K , V > {
pub fn as_slice ( & self ) -> Slice < 'a , K , V >
        ensures { } ;
}
impl < 'a , K , V > Keys < 'a , K , V > {
pub fn as_slice ( & self ) -> & 'a [ K ]
        ensures { } ;
}
impl < 'a , K , V > Model for Iter < 'a , K , V > {
    ghost use Rattle.std.specs.Prelude.{◌≡◌, List, length, zip};
    ghost use Rattle.std.specs.Slice.Iter.{iter_rest};
    ghost Value = { List (K × V) };
    ghost view = { λ a. zip (iter_rest a.keys) (iter_rest a.vals) };
    ghost invariant = { λ a. length (iter_rest a.vals) ≡ length (iter_rest a.keys) };
}
impl < 'a , K , V > Model for Keys < 'a , K , V > {
    ghost use Rattle.std.specs.Prelude.{List};
    ghost use Rattle.std.specs.Slice.Iter.{iter_rest};
    ghost Value = { List K };
    ghost view = { λ a. iter_rest a.inner };
}
impl < 'a , K , V > Model for Values < 'a , K , V > {
    ghost use Rattle.std.specs.Prelude.{List};
    ghost use Rattle.std.specs.Slice.Iter.{iter_rest};
    ghost Value = { List V };
    ghost view = { λ a. iter_rest a.inner };
}
impl < 'a , K , V > Values < 'a , K , V > {
pub fn as_slice ( & self ) -> & 'a [ V ]
        ensures { } ;
}
impl < K , V , A : Allocator > Model for IntoIter < K , V , A > {
    ghost use Rattle.std.specs.Prelude.{◌≡◌, List, length, zip};
    ghost use Rattle.std.specs.Vec.Iter.{into_iter_items};
    ghost Value = { List (K × V) };
    ghost view = { λ a. zip (into_iter_items a.keys) (into_iter_items a.vals) };
    ghost invariant = { λ a. length (into_iter_items a.vals) ≡ length (into_iter_items a.keys) };
}
impl < K , V , A : Allocator > Model for IntoKeys < K , V , A > {
    ghost use Rattle.std.specs.Prelude.{List};
    ghost use Rattle.std.specs.Map.{keys_of};
    ghost Value = { List K };
    ghost view = { λ a. keys_of a.inner };
}
impl < K , V , A : Allocator > Model for IntoValues < K , V , A > {
    ghost use Rattle.std.specs.Prelude.{List};
    ghost use Rattle.std.specs.Map.{values_of};
    ghost Value = { List V };
    ghost view = { λ a. values_of a.inner };
}

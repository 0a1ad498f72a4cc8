use crate :: nodes :: Node ;
use crate :: zones :: Zone ;
use crate :: zones :: ZoneName ;
use features :: Name ;
use indexmap :: IndexMap ;
use memory :: NoMemory ;
use plane :: Shape ;
use std :: alloc :: Allocator ;
use std :: hash :: BuildHasherDefault ;
use std :: hash :: FoldHasher ;
use std :: marker :: Model ;
# [ derive ( Debug , Drop ) ] pub struct Document < A : Allocator > { zones : Zones < A > , root : Node < A > , }
pub type Zones < A > = IndexMap < ZoneName , Shape , BuildHasherDefault < FoldHasher > , A > ;
# [ read_as = "74da7fd48b46ba969decda5287613743098058d4afebdc5129539b6f9896b2e1" ] impl < A : Allocator > PartialEq for Document < A > as DocumentPartialEq {
    ghost use Rattle.std.specs.Cmp.{decided, partial_equiv_from_equiv};
    ghost use Rattle.policy_documents.specs.Equality.{same_document, same_document_decides};
    ghost eq = { same_document };
    ghost laws = { partial_equiv_from_equiv (decided same_document same_document_decides) };
fn eq ( & self , other : & Self ) -> bool
        ensures tested { }
        ensures exact { } ;
}
# [ read_as = "e12de2482624b5baf099823da520ab9c7aeb6efb6d56a70739305768338ff655" ] impl < A : Allocator > Eq for Document < A > as DocumentEq {
    ghost use Rattle.std.specs.Cmp.{decided};
    ghost use Rattle.policy_documents.specs.Equality.{same_document, same_document_decides};
    ghost laws = { decided same_document same_document_decides };
}
impl < A : Allocator > Document < A > {
pub fn copy < B : Allocator + Copy > ( & self , alloc : B ) -> Result < Document < B > , NoMemory >
        ensures { } ;
pub fn new ( zones : Zones < A > , root : Node < A > ) -> Self
        requires { }
        ensures { } ;
pub fn root ( & self ) -> & Node < A >
        ensures root { }
        ensures sound { } ;
pub fn rule_name ( & self , number : u32 ) -> Option < Name >
        ensures { } ;
pub fn zone ( & self , name : Name ) -> Option < & Shape >
        ensures { } ;
pub fn zone_at ( & self , index : usize ) -> Option < Zone >
        ensures { } ;
pub fn zone_count ( & self ) -> usize
        ensures { } ;
pub fn zones ( & self ) -> & Zones < A >
        ensures { } ;
}
impl < A : Allocator > Model for Document < A > {
    ghost use Rattle.policy_documents.specs.Documents.{DocumentData, IsDocument};
    ghost use Rattle.policy_documents.specs.Coding.{Part, stored, restored, restored-stored};
    ghost use Rattle.policy_documents.specs.declared.zones.Zone.{Zone};
    ghost use Rattle.std.specs.Coded.{code_by, codes};
    ghost use Rattle.std.specs.Prelude.{List};
    ghost Value = { DocumentData };
    ghost coded = { code_by (List Zone × List Part) (Prim.hlevel codes) stored restored
        restored-stored };
    ghost use Rattle.policy_documents.specs.Views.{document_view};
    ghost view = { λ d. document_view d.zones.entries d.root };
    ghost invariant = { λ d. IsDocument (document_view d.zones.entries d.root) };
}

use crate :: names :: Name ;
# [ derive ( Clone , Copy , Debug , PartialEq , Eq ) ] pub enum Action { Read , Add , Reshape , Delete , }
# [ derive ( Clone , Copy , Debug ) ] pub struct Subject { pub name : Name , pub office : Name , pub role : Name , pub steward : bool , }
# [ read_as = "2018ead0bba6a4aa3d28cb20bc4d113c84faa0cb24d1c63f315e1cbafcd5cbe0" ] impl PartialEq for Subject as SubjectPartialEq {
    ghost use Rattle.std.specs.Cmp.{decided, partial_equiv_from_equiv};
    ghost use Rattle.features.specs.Equality.{same_subject, same_subject_decides};
    ghost eq = { same_subject };
    ghost laws = { partial_equiv_from_equiv (decided same_subject same_subject_decides) };
fn eq ( & self , other : & Subject ) -> bool
        ensures tested { }
        ensures exact { } ;
}
# [ read_as = "e51bc8bb6731742076840574cb3a5ff10ed42ff244cbd8777f5ea9bfeda4f3c9" ] impl Eq for Subject as SubjectEq {
    ghost use Rattle.std.specs.Cmp.{decided};
    ghost use Rattle.features.specs.Equality.{same_subject, same_subject_decides};
    ghost laws = { decided same_subject same_subject_decides };
}

# [ derive ( Clone , Copy , Debug , PartialEq , Eq ) ] pub enum Algorithm { DenyOverrides , PermitOverrides , DenyUnlessPermit , PermitUnlessDeny , FirstApplicable , }
# [ derive ( Clone , Copy , Debug , PartialEq , Eq ) ] pub enum Effect { Permit , Deny , }

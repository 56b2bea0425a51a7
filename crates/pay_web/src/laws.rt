//! What is true of all answers.
ghost use Rattle.pay_web.specs.Laws.{HaveThePolicy, OnlyClerksPut, StaffHaveThePolicy};

use crate::corrects::Corrects;
use crate::pages::Pages;

/// No answer lacks the policy by which a browser runs no script.
pub fn answers_have_the_policy<P: Pages>()
    ensures { HaveThePolicy P.Pages }
{}

/// Nor does any where clerks correct accounts.
pub fn staff_answers_have_the_policy<P: Pages + Corrects>()
    ensures { StaffHaveThePolicy P.Pages P.Corrects }
{}

/// There, a request puts one correction at most, and only one that a clerk may make and asks for; any other request changes nothing.
pub fn only_clerks_put<P: Pages + Corrects>()
    ensures { OnlyClerksPut P.Pages P.Corrects }
{}

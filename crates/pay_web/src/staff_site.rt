//! The service that answers requests, and puts the corrections of clerks.
ghost use Rattle.std.specs.Prelude.{◌≡◌, IfOk, OnErr, OnOk};
ghost use Rattle.http.specs.Request.{head_of};
ghost use Rattle.http_server.specs.Response.{IsBlank};
ghost use Rattle.pay_web.specs.Gates.{IsAtPort};
ghost use Rattle.pay_web.specs.Posted.{IsFormAnswer, IsStaffAnswer, posted_form};
ghost use Rattle.pay_web.specs.Questions.{IsQuestion};

use crate::corrects::Corrects;
use crate::gate::{Stranger, clerk_at};
use crate::hosts::Hosts;
use crate::pages::Pages;
use crate::posting::{Poster, answer_fix, answer_preview, refuse_stranger};
use crate::question::{Question, choice_of, is_for, question_of};
use crate::staff::Staff;
use crate::telling::{HTML, answer_question, show};
use crate::wish::{Form, form_at};
use bytes::Bytes;
use http::header::AUTHORIZATION;
use http::{Method, Request};
use http_server::{Response, Service};
use std::alloc::{AllocError, Global};

/// Answers the requests of browsers at a port of this machine, where clerks may correct accounts.
#[derive(Drop)]
pub struct StaffSite<P> {
    alloc: Global,
    hosts: Hosts,
    staff: Staff,
    pages: P,
}

impl<P: Drop> StaffSite<P> {
    /// A site at this port, with these pages, for these clerks.
    pub fn new(alloc: Global, port: u16, staff: Staff, pages: P) -> Result<StaffSite<P>, AllocError>
        ensures hosts { IfOk result (λ it. IsAtPort port it.hosts) }
        ensures staff { IfOk result (λ it. it.staff ≡ staff) }
        ensures pages { IfOk result (λ it. it.pages ≡ pages) }
    {
        let hosts = Hosts::of_port(alloc, port)?;
        Ok(StaffSite {
            alloc,
            hosts,
            staff,
            pages,
        })
    }
}

impl<P: Pages + Corrects> StaffSite<P> {
    /// Answers what a request asks for.
    fn answer_question(&self, question: Question, response: &mut Response) -> Result<(), AllocError>
        requires in_range { IsQuestion question }
        requires blank { IsBlank response.old }
        ensures { OnOk result (IsStaffAnswer P.Pages P.Corrects self.now.pages question response.new) }
    {
        match choice_of(question) {
            Some(asked) => show(HTML, self.pages.choice(asked), response),
            None => answer_question(self.alloc, true, &self.pages, question, response),
        }
    }

    /// Answers a form that is posted.
    fn answer_form(
        &mut self,
        form: Form,
        request: &Request<Bytes>,
        response: &mut Response,
    ) -> Result<(), AllocError>
        requires { IsBlank response.old }
        ensures answered { OnOk result (IsFormAnswer P.Corrects form self.old request.now (response.new, self.new)) }
        ensures same { OnErr result (self.new ≡ self.old) }
    {
        let clerk = match clerk_at(&self.hosts, &self.staff.clerks, request) {
            Ok(clerk) => clerk,
            Err(stranger) => {
                self.note(stranger, request);
                return refuse_stranger(stranger, response);
            }
        };
        let token = self.staff.token.as_str();
        let poster = Poster { clerk, token };
        let body = request.body().as_slice();
        match form {
            Form::Fix => answer_fix(self.alloc, poster, &mut self.pages, body, response),
            _ => answer_preview(self.alloc, poster, &self.pages, form, body, response),
        }
    }

    /// Notes a secret that is wrong. A browser sends none until it was asked for one.
    fn note(&self, stranger: Stranger, request: &Request<Bytes>) {
        if let Stranger::Nobody = stranger {
            if let Some(value) = request.headers().get(AUTHORIZATION) {
                let staff = self.staff.clerks.named(value.as_bytes());
                self.pages.note_wrong_secret(staff);
            }
        }
    }

    /// The form that a request posts.
    fn posted_form(&self, request: &Request<Bytes>) -> Option<Form>
        ensures { result ≡ posted_form self.now.hosts (head_of request.now) }
    {
        if is_for(&self.hosts, request) && *request.method() == Method::POST {
            form_at(request.uri().path())
        } else {
            None
        }
    }
}

impl<P: Pages + Corrects> Service for StaffSite<P> {
    ghost use Rattle.pay_web.specs.Posted.{Answers};

    ghost answers = { Answers P.Pages P.Corrects };

    fn call(
        &mut self,
        request: &Request<Bytes>,
        response: &mut Response,
    ) -> Result<(), AllocError> {
        match self.posted_form(request) {
            Some(form) => self.answer_form(form, request, response),
            None => {
                let question = question_of(&self.hosts, request);
                self.answer_question(question, response)
            }
        }
    }
}

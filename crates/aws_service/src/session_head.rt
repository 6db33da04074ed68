//! A head signed in its headers with the credential of a session.
ghost use Rattle.std.specs.Prelude.{◌≡◌, ◌⊎◌, ◌++◌, Ok, Err, IfOk, IfErr};
ghost use Rattle.aws_service.specs.LeftOut.{kept, with_behind};
ghost use Rattle.aws_service.specs.SessionHead.{head_signing, whole_signing, head_to_sign};

use crate::content::{own_payload, says_no_other, state_content};
use crate::token::replace_token;
use crate::uri_text::has_plus;
use crate::{AwsError, AwsService};
use aws_credentials::SessionCredential;
use sign_base::{Field, Fields, Head, NoMemory, Timestamp};
use sigv4_core::{Payload, sign_head_seeded};
use std::alloc::Global;
use std::mem::replace;

impl<X> AwsService<X> {
    /// The head with its signature in the header `authorization`, as `sign_head` of `sigv4_core` answers it
    /// for the head with the credential's token and its content's word, but for the headers that are left
    /// out of what is signed: these stand behind, as they were.
    ///
    /// `Plus` where the query has a `+`; `Content` where the head says another word than the rule of the
    /// service has for it; else what `sign_head` refuses. When the credential expires is not asked: ask
    /// `is_valid` first.
    #[tactic(auto, unfolding(crate::specs::SessionHead::head_signing))]
    pub fn sign_head(
        &self,
        alloc: Global,
        head: &Head,
        session: &SessionCredential,
        now: Timestamp,
    ) -> Result<Head, AwsError>
        ensures ok { IfOk result (λ h. head_signing self.now session.now now head.now ≡ Ok h) }
        ensures err { IfErr result (λ why. (why ≡ AwsError.OutOfMemory)
            ⊎ (head_signing self.now session.now now head.now ≡ Err why)) }
    {
        if has_plus(head.uri.as_slice()) {
            return Err(AwsError::Plus);
        }
        let behind = self.left_out.headers_of(alloc, &head.headers)?;
        let rest = self.without_left_out(alloc, head)?;
        let signed = self.sign_whole(alloc, rest, session, now)?;
        Ok(with_behind(alloc, signed, behind)?)
    }

    /// The head without the headers that are left out.
    fn without_left_out(&self, alloc: Global, head: &Head) -> Result<Head, NoMemory<()>>
        ensures { IfOk result
            (λ h. h ≡ record head.now { headers = kept self.now.left_out head.now.headers }) }
    {
        Ok(Head {
            method: head.method.try_clone(alloc)?,
            uri: head.uri.try_clone(alloc)?,
            version: head.version,
            headers: Fields::from_vec(self.left_out.others_of(alloc, &head.headers)?),
        })
    }

    /// The head, all of whose headers are signed.
    #[tactic(auto, unfolding(crate::specs::SessionHead::whole_signing))]
    fn sign_whole(
        &self,
        alloc: Global,
        head: Head,
        session: &SessionCredential,
        now: Timestamp,
    ) -> Result<Head, AwsError>
        ensures ok { IfOk result (λ h. whole_signing self.now session.now now head ≡ Ok h) }
        ensures err { IfErr result (λ why. (why ≡ AwsError.OutOfMemory)
            ⊎ (whole_signing self.now session.now now head ≡ Err why)) }
    {
        let own = own_payload(alloc, self.content, head.headers.as_slice())?;
        let payload = match &own {
            Some(own) => own,
            None => &self.payload,
        };
        if !says_no_other(payload.hash_or_unsigned(), head.headers.as_slice()) {
            return Err(AwsError::Content);
        }
        let ready = self.head_to_sign(alloc, head, session, payload)?;
        Ok(sign_head_seeded(
            alloc,
            &ready,
            session.key(),
            &self.scope,
            payload,
            now,
            self.keys,
        )?)
    }

    /// The head that is signed where its content has this word.
    fn head_to_sign(
        &self,
        alloc: Global,
        mut head: Head,
        session: &SessionCredential,
        payload: &Payload,
    ) -> Result<Head, NoMemory<()>>
        ensures { IfOk result (λ h. h ≡ head_to_sign self.now session.now payload.now head) }
    {
        let mut headers = replace(&mut head.headers, Fields::new(alloc)).into_vec();
        state_content(
            alloc,
            self.content,
            payload.hash_or_unsigned(),
            &mut headers,
        )?;
        replace_token(alloc, session.token(), &mut headers)?;
        head.headers = Fields::from_vec(headers);
        Ok(head)
    }
}

/// The head with these headers behind its own.
fn with_behind(alloc: Global, mut head: Head, mut behind: Vec<Field>) -> Result<Head, NoMemory<()>>
    ensures { IfOk result (λ h. h ≡ with_behind behind.items head) }
{
    let mut headers = replace(&mut head.headers, Fields::new(alloc)).into_vec();
    headers.append(&mut behind)?;
    head.headers = Fields::from_vec(headers);
    Ok(head)
}

//! What providers, services and granters work in: a reader of files, a sender of HTTP requests, an
//! environment, and a runner of commands. Each call goes to the object that is there for it.
ghost use Rattle.std.specs.Prelude.{◌≡◌, ◌≢◌, ℕ, List, map, IfOk, IfErr, Some, codes, option_map};
ghost use Rattle.std.specs.Fmt.{WritesOnOk, WritesStyledOnOk};
ghost use Rattle.std.specs.String.{string_bytes};
ghost use Rattle.http.specs.declared.request.Request.{Request};
ghost use Rattle.http.specs.declared.response.Response.{Response};
ghost use Rattle.credentials.specs.declared.polled.Polled.{Polled};
ghost use Rattle.credentials.specs.Polled.{CanBePolledAgain, polled_map};
ghost use Rattle.credentials.specs.Env.{HasVariables};
ghost use Rattle.credentials.specs.Home.{expanded_path};
ghost use Rattle.credentials.specs.Context.{AnswersText, IsTextOf, IsTextResponse};

use crate::home::{begins_at_home, with_home};
use crate::{
    CommandExecute, CommandOutput, Env, FileRead, HttpSend, NoopCommandExecute, NoopEnv,
    NoopFileRead, NoopHttpSend, Polled,
};
use bytes::Bytes;
use http::{Request, Response};
use sign_base::NoMemory;
use std::alloc::Global;
use std::collections::HashMap;
use std::fmt;
use std::marker::Model;

/// A reader of files, a sender of requests, an environment and a runner of commands.
#[derive(Drop)]
pub struct Context<F, H, E, C> {
    file_read: F,
    http_send: H,
    env: E,
    command_execute: C,
}

impl<F, H, E, C> Model for Context<F, H, E, C> {
    ghost use Rattle.credentials.specs.Context.{Objects};

    ghost Value = { Objects F H E C };

    ghost view = { λ ctx. record {
      file_read = ctx.file_read;
      http_send = ctx.http_send;
      env = ctx.env;
      command_execute = ctx.command_execute;
    } };
}

impl Context<NoopFileRead, NoopHttpSend, NoopEnv, NoopCommandExecute> {
    /// A context that reads no files, sends no requests, runs no commands, and has no variables. What
    /// is needed of these is put in by the `with_` calls.
    pub fn new() -> Self {
        Context {
            file_read: NoopFileRead,
            http_send: NoopHttpSend,
            env: NoopEnv,
            command_execute: NoopCommandExecute,
        }
    }
}

impl<F: FileRead, H: HttpSend, E: Env, C: CommandExecute> Context<F, H, E, C> {
    /// The context with this reader of files, and its other three objects as they were.
    pub fn with_file_read<F2: FileRead>(self, object: F2) -> Context<F2, H, E, C>
        ensures { result ≡ record {
          file_read = object;
          http_send = self.http_send;
          env = self.env;
          command_execute = self.command_execute;
        } }
    {
        Context {
            file_read: object,
            http_send: self.http_send,
            env: self.env,
            command_execute: self.command_execute,
        }
    }

    /// The context with this sender of requests, and its other three objects as they were.
    pub fn with_http_send<H2: HttpSend>(self, object: H2) -> Context<F, H2, E, C>
        ensures { result ≡ record {
          file_read = self.file_read;
          http_send = object;
          env = self.env;
          command_execute = self.command_execute;
        } }
    {
        Context {
            file_read: self.file_read,
            http_send: object,
            env: self.env,
            command_execute: self.command_execute,
        }
    }

    /// The context with this environment, and its other three objects as they were.
    pub fn with_env<E2: Env>(self, object: E2) -> Context<F, H, E2, C>
        ensures { result ≡ record {
          file_read = self.file_read;
          http_send = self.http_send;
          env = object;
          command_execute = self.command_execute;
        } }
    {
        Context {
            file_read: self.file_read,
            http_send: self.http_send,
            env: object,
            command_execute: self.command_execute,
        }
    }

    /// The context with this runner of commands, and its other three objects as they were.
    pub fn with_command_execute<C2: CommandExecute>(self, object: C2) -> Context<F, H, E, C2>
        ensures { result ≡ record {
          file_read = self.file_read;
          http_send = self.http_send;
          env = self.env;
          command_execute = object;
        } }
    {
        Context {
            file_read: self.file_read,
            http_send: self.http_send,
            env: self.env,
            command_execute: object,
        }
    }

    /// Begins to read the file at this path. Where the object has no memory, neither has this.
    pub fn file_read(&self, alloc: Global, path: &str) -> Result<F::Read, NoMemory<()>>
        ensures { IfOk result (λ read. F.started self.now.file_read path.now read) }
    {
        self.file_read.file_read(alloc, path)
    }

    /// Goes on with a read, and answers what its object answers.
    pub fn poll_file_read(&self, alloc: Global, read: &mut F::Read) -> Polled<Vec<u8>>
        ensures kept { (path : List ℕ) → F.started self.now.file_read path read.old → CanBePolledAgain result
            → F.started self.now.file_read path read.new }
        ensures ready { F.ready self.now.file_read read.old → result ≢ Polled.Pending }
        ensures gives { (path : List ℕ) → F.started self.now.file_read path read.old
            → F.gives self.now.file_read path (polled_map (λ v. v.items) result) }
    {
        self.file_read.poll_read(alloc, read)
    }

    /// Goes on with a read, and answers what its object answers, with the file's bytes decoded
    /// lossily. After `OutOfMemory` the read is spent, and its caller polls it no more.
    pub fn poll_file_read_as_string(&self, alloc: Global, read: &mut F::Read) -> Polled<String>
        ensures kept { (path : List ℕ) → F.started self.now.file_read path read.old → result ≡ Polled.Pending
            → F.started self.now.file_read path read.new }
        ensures ready { F.ready self.now.file_read read.old → result ≢ Polled.Pending }
        ensures gives { (path : List ℕ) → F.started self.now.file_read path read.old
            → ((answer : Polled (List ℕ)) × F.gives self.now.file_read path answer
            × AnswersText IsTextOf answer result) }
    {
        match self.file_read.poll_read(alloc, read) {
            Polled::Ready(bytes) => match String::from_utf8_lossy(alloc, bytes.as_slice()) {
                Ok(text) => Polled::Ready(text),
                Err(_) => Polled::OutOfMemory,
            },
            Polled::Pending => Polled::Pending,
            Polled::Failed(error) => Polled::Failed(error),
            Polled::OutOfMemory => Polled::OutOfMemory,
        }
    }

    /// Begins to send this request. Where there is no memory, it comes back.
    pub fn http_send(
        &self,
        alloc: Global,
        req: Request<Bytes>,
    ) -> Result<H::Send, NoMemory<Request<Bytes>>>
        ensures ok { IfOk result (λ send. H.started self.now.http_send req send) }
        ensures back { IfErr result (λ e. e.back ≡ req) }
    {
        self.http_send.http_send(alloc, req)
    }

    /// Goes on with a send, and answers what its object answers.
    pub fn poll_http_send(&self, alloc: Global, send: &mut H::Send) -> Polled<Response<Bytes>>
        ensures kept { (req : Request (List ℕ)) → H.started self.now.http_send req send.old
            → CanBePolledAgain result → H.started self.now.http_send req send.new }
        ensures ready { H.ready self.now.http_send send.old → result ≢ Polled.Pending }
        ensures gives { (req : Request (List ℕ)) → H.started self.now.http_send req send.old
            → H.gives self.now.http_send req result }
    {
        self.http_send.poll_send(alloc, send)
    }

    /// Goes on with a send, and answers what its object answers, with the body decoded lossily. After
    /// `OutOfMemory` the send is spent, and its caller polls it no more.
    pub fn poll_http_send_as_string(
        &self,
        alloc: Global,
        send: &mut H::Send,
    ) -> Polled<Response<String>>
        ensures kept { (req : Request (List ℕ)) → H.started self.now.http_send req send.old
            → result ≡ Polled.Pending → H.started self.now.http_send req send.new }
        ensures ready { H.ready self.now.http_send send.old → result ≢ Polled.Pending }
        ensures gives { (req : Request (List ℕ)) → H.started self.now.http_send req send.old
            → ((answer : Polled (Response (List ℕ))) × H.gives self.now.http_send req answer
            × AnswersText IsTextResponse answer result) }
    {
        match self.http_send.poll_send(alloc, send) {
            Polled::Ready(response) => with_text_body(alloc, response),
            Polled::Pending => Polled::Pending,
            Polled::Failed(error) => Polled::Failed(error),
            Polled::OutOfMemory => Polled::OutOfMemory,
        }
    }

    /// Begins to run a program with these arguments. Where the object has no memory, neither has this.
    pub fn command_execute(
        &self,
        alloc: Global,
        program: &str,
        args: &[String],
    ) -> Result<C::Run, NoMemory<()>>
        ensures { IfOk result
            (λ run. C.started self.now.command_execute program.now (map string_bytes args.now) run) }
    {
        self.command_execute.command_execute(alloc, program, args)
    }

    /// Goes on with a run, and answers what its object answers.
    pub fn poll_command(&self, alloc: Global, run: &mut C::Run) -> Polled<CommandOutput>
        ensures kept { (program : List ℕ) (args : List (List ℕ))
            → C.started self.now.command_execute program args run.old → CanBePolledAgain result
            → C.started self.now.command_execute program args run.new }
        ensures ready { C.ready self.now.command_execute run.old → result ≢ Polled.Pending }
        ensures gives { (program : List ℕ) (args : List (List ℕ))
            → C.started self.now.command_execute program args run.old
            → C.gives self.now.command_execute program args result }
    {
        self.command_execute.poll_run(alloc, run)
    }

    /// The path of the home folder, or None where the environment has none.
    pub fn home_dir(&self, alloc: Global) -> Result<Option<String>, NoMemory<()>>
        ensures { IfOk result (λ path. option_map string_bytes path ≡ E.home self.now.env) }
    {
        self.env.home_dir(alloc)
    }

    /// The value of a variable, or None where the environment has no such variable.
    pub fn env_var(&self, alloc: Global, key: &str) -> Result<Option<String>, NoMemory<()>>
        ensures { IfOk result (λ value. option_map string_bytes value ≡ E.variables self.now.env key.now) }
    {
        self.env.var(alloc, key)
    }

    /// All variables of the environment.
    pub fn env_vars(&self, alloc: Global) -> Result<HashMap<String, String>, NoMemory<()>>
        ensures { IfOk result (λ vars. HasVariables vars (E.variables self.now.env)) }
    {
        self.env.vars(alloc)
    }

    /// A path that begins with `~/` or `~\` with the home folder in place of every `~`, or None where
    /// there is no home folder. Any other path as it is.
    pub fn expand_home_dir(&self, alloc: Global, path: &str) -> Result<Option<String>, NoMemory<()>>
        ensures { IfOk result
            (λ text. option_map string_bytes text ≡ expanded_path (E.home self.now.env) path.now) }
    {
        if !begins_at_home(path) {
            return Ok(Some(String::from_str(alloc, path)?));
        }
        match self.env.home_dir(alloc)? {
            Some(home) => Ok(Some(with_home(alloc, home.as_str(), path)?)),
            None => Ok(None),
        }
    }
}

/// Shows nothing of its objects, which may hold secrets.
impl<F, H, E, C> fmt::Debug for Context<F, H, E, C> {
    ghost debug_output = { λ _. Some (codes "Context") };

    fn fmt<W: fmt::Write>(&self, f: &mut fmt::Formatter<W>) -> fmt::Result
        ensures writes { WritesOnOk W.write_str_gives f.old result (codes "Context") f.new }
        ensures styled { WritesStyledOnOk W.write_str_gives f.old result (codes "Context") f.new }
    {
        f.write_str("Context")
    }
}

/// The response with its body decoded lossily.
fn with_text_body(alloc: Global, response: Response<Bytes>) -> Polled<Response<String>>
    ensures { AnswersText IsTextResponse (Polled.Ready response) result }
{
    let (head, body) = response.into_parts();
    match String::from_utf8_lossy(alloc, body.as_slice()) {
        Ok(text) => Polled::Ready(Response::from_parts(head, text)),
        Err(_) => Polled::OutOfMemory,
    }
}

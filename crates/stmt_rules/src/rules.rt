//! The rules of the grammar, each read by a call of its own.
//!
//! MySQL 8.0 Reference Manual, "Account Management Statements". A call that answers
//! [`Fault::Here`] leaves the cursor at the token that doesn't fit.

ghost use Rattle.std.specs.Prelude.{◌≡◌, [], OnOk, Some, None, true, false};
ghost use Rattle.stmt_rules.specs.Grammar.{alter, alter_named, alter_own, auth, bound, bound_in_days, change, create, discarded, dropped, expire, factor, factors, flushed, further_options, further_privilege, privilege_repeats, grant, host, is_nothing, lock_time, name, name_of, numbered, on_all, option, options, over, own_change, password, password_option, account_option, privilege, privileges, retained, revoke, statement, target, ways};
ghost use Rattle.stmt_rules.specs.Forms.{many};
ghost use Rattle.stmt_rules.specs.Taking.{Takes};

use crate::cursor::{Cursor, Fault};
use crate::statement::{
    Auth, Bound, Change, Expire, FactorAuth, Options, Privileges, Statement, Target, Time,
};
use lg_base::{Bytes, Host, Items, Name};
use std::alloc::Global;

/// No option.
const NO_OPTIONS: Options = Options {
    expire: None,
    history: None,
    reuse: None,
    attempts: None,
    lock_time: None,
    lock: None,
};

impl<'a> Cursor<'a> {
    /// `['@' host]`, where `%` is quoted. Without a host it is `%`.
    #[tactic(auto, unfolding(crate::specs::Grammar::host))]
    fn host(&mut self) -> Result<Host, Fault>
        ensures { Takes host self.old self.new result }
    {
        if !self.takes_sign(b'@') {
            return Ok(Host::Any);
        }
        if self.takes_part(b"localhost") {
            return Ok(Host::Localhost);
        }
        if self.takes_quoted(b"%") {
            return Ok(Host::Any);
        }
        Err(Fault::Here)
    }

    /// `part ['@' host]`.
    #[tactic(auto, unfolding(crate::specs::Grammar::name))]
    fn name(&mut self, alloc: Global) -> Result<Name, Fault>
        ensures { Takes name self.old self.new result }
    {
        let user = self.part(alloc)?;
        let host = self.host()?;
        Ok(Name { user, host })
    }

    /// `[RETAIN CURRENT PASSWORD]`, where it may stand.
    #[tactic(auto, unfolding(crate::specs::Grammar::retained))]
    fn retained(&mut self, keeps: bool) -> Result<bool, Fault>
        ensures { Takes (retained keeps) self.old self.new result }
    {
        if !keeps {
            return Ok(false);
        }
        if !self.takes_word(b"RETAIN") {
            return Ok(false);
        }
        self.word(b"CURRENT")?;
        self.word(b"PASSWORD")?;
        Ok(true)
    }

    /// `string [RETAIN CURRENT PASSWORD]`, behind `BY`.
    #[tactic(auto, unfolding(crate::specs::Grammar::password))]
    fn password(&mut self, alloc: Global, keeps: bool, method: Option<Bytes>) -> Result<Auth, Fault>
        ensures { Takes (password keeps method) self.old self.new result }
    {
        let text = self.string(alloc)?;
        let retain = self.retained(keeps)?;
        Ok(Auth {
            method,
            password: Some(text),
            retain,
        })
    }

    /// `BY string ..` or `WITH word [BY string ..]`, behind `IDENTIFIED`.
    #[tactic(auto, unfolding(crate::specs::Grammar::auth))]
    fn auth(&mut self, alloc: Global, keeps: bool) -> Result<Auth, Fault>
        ensures { Takes (auth keeps) self.old self.new result }
    {
        if self.takes_word(b"BY") {
            return self.password(alloc, keeps, None);
        }
        self.word(b"WITH")?;
        let method = self.part(alloc)?;
        if self.takes_word(b"BY") {
            return self.password(alloc, keeps, Some(method));
        }
        Ok(Auth {
            method: Some(method),
            password: None,
            retain: false,
        })
    }

    /// `IDENTIFIED WITH word AS string`.
    #[tactic(auto, unfolding(crate::specs::Grammar::factor))]
    fn factor(&mut self, alloc: Global) -> Result<FactorAuth, Fault>
        ensures { Takes factor self.old self.new result }
    {
        self.word(b"IDENTIFIED")?;
        self.word(b"WITH")?;
        let method = self.part(alloc)?;
        self.word(b"AS")?;
        let label = self.string(alloc)?;
        Ok(FactorAuth { method, label })
    }

    /// `{AND factor}`, at most twice.
    #[tactic(auto, unfolding(crate::specs::Grammar::factors))]
    fn factors(&mut self, alloc: Global) -> Result<Items<FactorAuth>, Fault>
        ensures { Takes factors self.old self.new result }
    {
        let mut made = Items::new(alloc);
        if !self.takes_word(b"AND") {
            return Ok(made);
        }
        let second = self.factor(alloc)?;
        made.push(second)?;
        if !self.takes_word(b"AND") {
            return Ok(made);
        }
        let third = self.factor(alloc)?;
        made.push(third)?;
        Ok(made)
    }

    /// `DEFAULT` or a number.
    #[tactic(auto, unfolding(crate::specs::Grammar::bound))]
    fn bound(&mut self) -> Result<Bound, Fault>
        ensures { Takes bound self.old self.new result }
    {
        if self.takes_word(b"DEFAULT") {
            return Ok(Bound::Default);
        }
        let count = self.number()?;
        Ok(Bound::Count(count))
    }

    /// `DEFAULT` or a number of days.
    #[tactic(auto, unfolding(crate::specs::Grammar::bound_in_days))]
    fn bound_in_days(&mut self) -> Result<Bound, Fault>
        ensures { Takes bound_in_days self.old self.new result }
    {
        if self.takes_word(b"DEFAULT") {
            return Ok(Bound::Default);
        }
        let count = self.number()?;
        self.word(b"DAY")?;
        Ok(Bound::Count(count))
    }

    /// A number or `UNBOUNDED`.
    #[tactic(auto, unfolding(crate::specs::Grammar::lock_time))]
    fn lock_time(&mut self) -> Result<Time, Fault>
        ensures { Takes lock_time self.old self.new result }
    {
        if self.takes_word(b"UNBOUNDED") {
            return Ok(Time::Unbounded);
        }
        let days = self.number()?;
        Ok(Time::Days(days))
    }

    /// `[DEFAULT | NEVER | INTERVAL number DAY]`, behind `PASSWORD EXPIRE`.
    #[tactic(auto, unfolding(crate::specs::Grammar::expire))]
    fn expire(&mut self) -> Result<Expire, Fault>
        ensures { Takes expire self.old self.new result }
    {
        if self.takes_word(b"DEFAULT") {
            return Ok(Expire::Default);
        }
        if self.takes_word(b"NEVER") {
            return Ok(Expire::Never);
        }
        if !self.takes_word(b"INTERVAL") {
            return Ok(Expire::Now);
        }
        let days = self.number()?;
        self.word(b"DAY")?;
        Ok(Expire::Days(days))
    }

    /// An option that begins with `PASSWORD`, behind that word.
    #[tactic(auto, unfolding(crate::specs::Grammar::password_option))]
    fn password_option(&mut self, mut options: Options) -> Result<Options, Fault>
        ensures { Takes (password_option options) self.old self.new result }
    {
        if self.takes_word(b"EXPIRE") {
            options.expire = Some(self.expire()?);
            return Ok(options);
        }
        if self.takes_word(b"HISTORY") {
            options.history = Some(self.bound()?);
            return Ok(options);
        }
        self.word(b"REUSE")?;
        self.word(b"INTERVAL")?;
        options.reuse = Some(self.bound_in_days()?);
        Ok(options)
    }

    /// `LOCK` or `UNLOCK`, behind `ACCOUNT`.
    #[tactic(auto, unfolding(crate::specs::Grammar::account_option))]
    fn account_option(&mut self, mut options: Options) -> Result<Options, Fault>
        ensures { Takes (account_option options) self.old self.new result }
    {
        if self.takes_word(b"LOCK") {
            options.lock = Some(true);
            return Ok(options);
        }
        self.word(b"UNLOCK")?;
        options.lock = Some(false);
        Ok(options)
    }

    /// An option, behind those so far. Where none begins, none is answered, or the fault if one is
    /// needed.
    #[tactic(auto, unfolding(crate::specs::Grammar::option))]
    fn option(&mut self, needed: bool, mut options: Options) -> Result<Option<Options>, Fault>
        ensures { Takes (option needed options) self.old self.new result }
    {
        if self.takes_word(b"PASSWORD") {
            let made = self.password_option(options)?;
            return Ok(Some(made));
        }
        if self.takes_word(b"FAILED_LOGIN_ATTEMPTS") {
            options.attempts = Some(self.number()?);
            return Ok(Some(options));
        }
        if self.takes_word(b"PASSWORD_LOCK_TIME") {
            options.lock_time = Some(self.lock_time()?);
            return Ok(Some(options));
        }
        if self.takes_word(b"ACCOUNT") {
            let made = self.account_option(options)?;
            return Ok(Some(made));
        }
        if needed { Err(Fault::Here) } else { Ok(None) }
    }

    /// Options behind the first one. Each takes a token, so there are no more than tokens.
    #[tactic(auto, using(crate::proofs::Loops::once_more))]
    fn further_options(&mut self, first: Options) -> Result<Options, Fault>
        ensures { Takes (further_options (Some first)) self.old self.new result }
    {
        let mut options = first;
        for _ in 0..self.len() {
            match self.option(false, options)? {
                Some(made) => options = made,
                None => return Ok(options),
            }
        }
        Ok(options)
    }

    /// `{option}`, with one at least where one is needed.
    #[tactic(auto, unfolding(crate::specs::Grammar::options))]
    fn options(&mut self, needed: bool) -> Result<Options, Fault>
        ensures { Takes (options needed) self.old self.new result }
    {
        match self.option(needed, NO_OPTIONS)? {
            Some(first) => self.further_options(first),
            None => Ok(NO_OPTIONS),
        }
    }

    /// `[';']` and the end.
    #[tactic(auto, unfolding(crate::specs::Grammar::over))]
    fn over(&mut self) -> Result<(), Fault>
        ensures taken { Takes over self.old self.new result }
        ensures end { OnOk result (self.new ≡ []) }
    {
        let _ = self.takes_sign(b';');
        if self.is_at_end() {
            Ok(())
        } else {
            Err(Fault::Here)
        }
    }

    /// `(2 | 3) FACTOR`.
    #[tactic(auto, unfolding(crate::specs::Grammar::numbered))]
    fn numbered(&mut self) -> Result<u8, Fault>
        ensures { Takes numbered self.old self.new result }
    {
        if self.takes_word(b"2") {
            self.word(b"FACTOR")?;
            return Ok(2);
        }
        self.word(b"3")?;
        self.word(b"FACTOR")?;
        Ok(3)
    }

    /// `OLD PASSWORD`, behind `DISCARD`.
    #[tactic(auto, unfolding(crate::specs::Grammar::discarded))]
    fn discarded(&mut self) -> Result<Change, Fault>
        ensures { Takes discarded self.old self.new result }
    {
        self.word(b"OLD")?;
        self.word(b"PASSWORD")?;
        Ok(Change::Discard)
    }

    /// `[change]` of a named account.
    #[tactic(auto, unfolding(crate::specs::Grammar::change))]
    fn change(&mut self, alloc: Global) -> Result<Change, Fault>
        ensures { Takes change self.old self.new result }
    {
        if self.takes_word(b"IDENTIFIED") {
            let auth = self.auth(alloc, true)?;
            return Ok(Change::Password(auth));
        }
        if self.takes_word(b"DISCARD") {
            return self.discarded();
        }
        if self.takes_word(b"ADD") {
            let number = self.numbered()?;
            let factor = self.factor(alloc)?;
            return Ok(Change::Add(number, factor));
        }
        if self.takes_word(b"MODIFY") {
            let number = self.numbered()?;
            let factor = self.factor(alloc)?;
            return Ok(Change::Modify(number, factor));
        }
        if self.takes_word(b"DROP") {
            let number = self.numbered()?;
            return Ok(Change::DropFactor(number));
        }
        Ok(Change::Nothing)
    }

    /// The change behind `USER()`.
    #[tactic(auto, unfolding(crate::specs::Grammar::own_change))]
    fn own_change(&mut self, alloc: Global) -> Result<Change, Fault>
        ensures { Takes own_change self.old self.new result }
    {
        if self.takes_word(b"IDENTIFIED") {
            self.word(b"BY")?;
            let auth = self.password(alloc, true, None)?;
            return Ok(Change::Password(auth));
        }
        self.word(b"DISCARD")?;
        self.discarded()
    }

    /// `USER '(' ')'` or a name. The unquoted word `USER` with `(` behind it is no name.
    #[tactic(auto, unfolding(crate::specs::Grammar::target))]
    fn target(&mut self, alloc: Global) -> Result<Target, Fault>
        ensures { Takes target self.old self.new result }
    {
        let Some(user) = self.takes_written(alloc, b"USER")? else {
            let name = self.name(alloc)?;
            return Ok(Target::Named(name));
        };
        if self.takes_sign(b'(') {
            self.sign(b')')?;
            return Ok(Target::Own);
        }
        let host = self.host()?;
        Ok(Target::Named(Name { user, host }))
    }

    /// `[IDENTIFIED auth {AND factor}]`.
    #[tactic(auto, unfolding(crate::specs::Grammar::ways))]
    fn ways(&mut self, alloc: Global) -> Result<(Option<Auth>, Items<FactorAuth>), Fault>
        ensures { Takes ways self.old self.new result }
    {
        if !self.takes_word(b"IDENTIFIED") {
            return Ok((None, Items::new(alloc)));
        }
        let auth = self.auth(alloc, false)?;
        let factors = self.factors(alloc)?;
        Ok((Some(auth), factors))
    }

    /// The rest of a `CREATE USER`.
    #[tactic(auto, unfolding(crate::specs::Grammar::create))]
    fn create(&mut self, alloc: Global) -> Result<Statement, Fault>
        ensures taken { Takes create self.old self.new result }
        ensures end { OnOk result (self.new ≡ []) }
    {
        let name = self.name(alloc)?;
        let (auth, factors) = self.ways(alloc)?;
        let options = self.options(false)?;
        self.over()?;
        Ok(Statement::Create {
            name,
            auth,
            factors,
            options,
        })
    }

    /// The rest of an `ALTER USER USER()`.
    #[tactic(auto, unfolding(crate::specs::Grammar::alter_own))]
    fn alter_own(&mut self, alloc: Global) -> Result<Statement, Fault>
        ensures taken { Takes alter_own self.old self.new result }
        ensures end { OnOk result (self.new ≡ []) }
    {
        let change = self.own_change(alloc)?;
        self.over()?;
        Ok(Statement::Alter {
            target: Target::Own,
            change,
            options: NO_OPTIONS,
        })
    }

    /// The rest of an `ALTER USER` of a named account.
    #[tactic(auto, unfolding(crate::specs::Grammar::alter_named))]
    fn alter_named(&mut self, alloc: Global, name: Name) -> Result<Statement, Fault>
        ensures taken { Takes (alter_named name) self.old self.new result }
        ensures end { OnOk result (self.new ≡ []) }
    {
        let change = self.change(alloc)?;
        let options = self.options(is_nothing(&change))?;
        self.over()?;
        Ok(Statement::Alter {
            target: Target::Named(name),
            change,
            options,
        })
    }

    /// The rest of an `ALTER USER`.
    #[tactic(auto, unfolding(crate::specs::Grammar::alter))]
    fn alter(&mut self, alloc: Global) -> Result<Statement, Fault>
        ensures taken { Takes alter self.old self.new result }
        ensures end { OnOk result (self.new ≡ []) }
    {
        match self.target(alloc)? {
            Target::Own => self.alter_own(alloc),
            Target::Named(name) => self.alter_named(alloc, name),
        }
    }

    /// One privilege, beside those so far.
    #[tactic(auto, unfolding(crate::specs::Grammar::privilege))]
    fn privilege(&mut self, mut privileges: Privileges) -> Result<Privileges, Fault>
        ensures { Takes (privilege privileges) self.old self.new result }
    {
        if self.takes_word(b"CREATE") {
            self.word(b"USER")?;
            privileges.create_user = true;
            return Ok(privileges);
        }
        self.word(b"APPLICATION_PASSWORD_ADMIN")?;
        privileges.password_admin = true;
        Ok(privileges)
    }

    /// A comma and one more privilege, or nothing.
    #[tactic(auto, unfolding(crate::specs::Grammar::further_privilege))]
    fn further_privilege(&mut self, privileges: Privileges) -> Result<Option<Privileges>, Fault>
        ensures { Takes (further_privilege privileges) self.old self.new result }
    {
        if !self.takes_sign(b',') {
            return Ok(None);
        }
        let made = self.privilege(privileges)?;
        Ok(Some(made))
    }

    /// Privileges behind the first one. Each takes a token, so there are no more than tokens.
    #[tactic(auto, using(crate::proofs::Loops::once_more))]
    fn further_privileges(&mut self, first: Privileges) -> Result<Privileges, Fault>
        ensures { Takes (many further_privilege privilege_repeats first) self.old self.new result }
    {
        let mut privileges = first;
        for _ in 0..self.len() {
            match self.further_privilege(privileges)? {
                Some(made) => privileges = made,
                None => return Ok(privileges),
            }
        }
        Ok(privileges)
    }

    /// Privileges with commas between them.
    #[tactic(auto, unfolding(crate::specs::Grammar::privileges))]
    fn privileges(&mut self) -> Result<Privileges, Fault>
        ensures { Takes privileges self.old self.new result }
    {
        let first = self.privilege(Privileges {
            create_user: false,
            password_admin: false,
        })?;
        self.further_privileges(first)
    }

    /// `ON *.*`.
    #[tactic(auto, unfolding(crate::specs::Grammar::on_all))]
    fn on_all(&mut self) -> Result<(), Fault>
        ensures { Takes on_all self.old self.new result }
    {
        self.word(b"ON")?;
        self.sign(b'*')?;
        self.sign(b'.')?;
        self.sign(b'*')
    }

    /// The rest of a `GRANT`.
    #[tactic(auto, unfolding(crate::specs::Grammar::grant))]
    fn grant(&mut self, alloc: Global) -> Result<Statement, Fault>
        ensures taken { Takes grant self.old self.new result }
        ensures end { OnOk result (self.new ≡ []) }
    {
        let privileges = self.privileges()?;
        self.on_all()?;
        self.word(b"TO")?;
        let name = self.name(alloc)?;
        self.over()?;
        Ok(Statement::Grant { privileges, name })
    }

    /// The rest of a `REVOKE`.
    #[tactic(auto, unfolding(crate::specs::Grammar::revoke))]
    fn revoke(&mut self, alloc: Global) -> Result<Statement, Fault>
        ensures taken { Takes revoke self.old self.new result }
        ensures end { OnOk result (self.new ≡ []) }
    {
        let privileges = self.privileges()?;
        self.on_all()?;
        self.word(b"FROM")?;
        let name = self.name(alloc)?;
        self.over()?;
        Ok(Statement::Revoke { privileges, name })
    }

    /// The rest of a `DROP USER`.
    #[tactic(auto, unfolding(crate::specs::Grammar::dropped))]
    fn dropped(&mut self, alloc: Global) -> Result<Statement, Fault>
        ensures taken { Takes dropped self.old self.new result }
        ensures end { OnOk result (self.new ≡ []) }
    {
        let name = self.name(alloc)?;
        self.over()?;
        Ok(Statement::Drop { name })
    }

    /// The rest of a `FLUSH`.
    #[tactic(auto, unfolding(crate::specs::Grammar::flushed))]
    fn flushed(&mut self) -> Result<Statement, Fault>
        ensures taken { Takes flushed self.old self.new result }
        ensures end { OnOk result (self.new ≡ []) }
    {
        self.word(b"PRIVILEGES")?;
        self.over()?;
        Ok(Statement::Flush)
    }

    /// A statement.
    #[tactic(auto, unfolding(crate::specs::Grammar::statement))]
    pub fn statement(&mut self, alloc: Global) -> Result<Statement, Fault>
        ensures taken { Takes statement self.old self.new result }
        ensures end { OnOk result (self.new ≡ []) }
    {
        if self.takes_word(b"CREATE") {
            self.word(b"USER")?;
            return self.create(alloc);
        }
        if self.takes_word(b"ALTER") {
            self.word(b"USER")?;
            return self.alter(alloc);
        }
        if self.takes_word(b"DROP") {
            self.word(b"USER")?;
            return self.dropped(alloc);
        }
        if self.takes_word(b"FLUSH") {
            return self.flushed();
        }
        if self.takes_word(b"GRANT") {
            return self.grant(alloc);
        }
        self.word(b"REVOKE")?;
        self.revoke(alloc)
    }
}

/// Whether options alone stand.
fn is_nothing(change: &Change) -> bool
    ensures { result ≡ is_nothing change.now }
{
    matches!(change, Change::Nothing)
}

//! What is new on an interface, and what hooks are told of it.
ghost use Rattle.std.specs.Prelude.{[], ◌∷◌, false, OnOk, option_map};
ghost use Rattle.lease_text.specs.Leases.{lease_content};
ghost use Rattle.lease6_text.specs.Leases.{lease6_content};
ghost use Rattle.hook_env.specs.Situations.{Nothing, held_content};
ghost use Rattle.settings.specs.Fitting.{FitsManaged};
ghost use Rattle.client_model.specs.Dhcp4Steps.{lease_news};
ghost use Rattle.client_model.specs.Dhcp6Steps.{lease6_news};
ghost use Rattle.client_model.specs.Jobs.{own, told_of};
ghost use Rattle.client_model.specs.LocalSteps.{local_news};
ghost use Rattle.iface_machines.specs.Outcomes.{Tells, asked_in, carrier_told, lease6_told, lease_told, local_told};

use crate::outs::Outs;
use crate::sharing::push_shares;
use crate::telling::{
    leased4, leased6, local_held, local_net, push_event, push_event_if, push_static, reason4,
    reason6,
};
use client_model::{Iface, News};
use hook_env::Held;
use ipv4ll::{LlNews, ll_held};
use lease_text::Lease4;
use lease6_text::Lease6;
use net_types::NoMemory;
use settings::Managed;
use v4_client::{News4, held4};
use v6_client::{News6, held6};
use world::Reason;

impl Outs {
    /// Something is new.
    fn is_new(&mut self, news: News) -> Result<(), NoMemory>
        ensures { OnOk result (Tells (news ∷ []) [] (asked_in self.old) (asked_in self.new)) }
    {
        self.news.push(news)?;
        Ok(())
    }

    /// Something is new of a DHCPv4 lease.
    fn is_new4(&mut self, news: News4) -> Result<(), NoMemory>
        ensures { OnOk result (Tells (lease_news news) [] (asked_in self.old) (asked_in self.new)) }
    {
        match news {
            News4::Nothing => Ok(()),
            News4::Bound => self.is_new(News::Lease4(News4::Bound)),
            News4::Reboot => self.is_new(News::Lease4(News4::Reboot)),
            News4::Renew => self.is_new(News::Lease4(News4::Renew)),
            News4::Rebind => self.is_new(News::Lease4(News4::Rebind)),
            News4::Nak => self.is_new(News::Lease4(News4::Nak)),
            News4::Expire => self.is_new(News::Lease4(News4::Expire)),
            News4::Stop => self.is_new(News::Lease4(News4::Stop)),
        }
    }

    /// Something is new of a DHCPv6 lease.
    fn is_new6(&mut self, news: News6) -> Result<(), NoMemory>
        ensures { OnOk result (Tells (lease6_news news) [] (asked_in self.old) (asked_in self.new)) }
    {
        match news {
            News6::Nothing => Ok(()),
            News6::Bound => self.is_new(News::Lease6(News6::Bound)),
            News6::Reboot => self.is_new(News::Lease6(News6::Reboot)),
            News6::Renew => self.is_new(News::Lease6(News6::Renew)),
            News6::Rebind => self.is_new(News::Lease6(News6::Rebind)),
            News6::Changed => self.is_new(News::Lease6(News6::Changed)),
            News6::Expire => self.is_new(News::Lease6(News6::Expire)),
            News6::Stop => self.is_new(News::Lease6(News6::Stop)),
        }
    }

    /// Tells that an interface was opened, which has carrier or none.
    pub fn tell_opened(&mut self, managed: &Managed, up: bool) -> Result<(), NoMemory>
        requires { FitsManaged managed.now }
        ensures { OnOk result
            (Tells (News.Opened ∷ []) (own Reason.Preinit managed.now up Nothing Nothing) (asked_in self.old)
            (asked_in self.new)) }
    {
        self.is_new(News::Opened)?;
        push_event(
            &mut self.told,
            Reason::Preinit,
            managed,
            up,
            Held::Nothing,
            Held::Nothing,
        )
    }

    /// Tells that the carrier came, and a static address with it.
    pub fn tell_carrier_came(&mut self, managed: &Managed) -> Result<(), NoMemory>
        requires { FitsManaged managed.now }
        ensures { OnOk result
            (Tells (News.CarrierCame ∷ []) (carrier_told managed.now) (asked_in self.old) (asked_in self.new)) }
    {
        self.is_new(News::CarrierCame)?;
        push_event(
            &mut self.told,
            Reason::Carrier,
            managed,
            true,
            Held::Nothing,
            Held::Nothing,
        )?;
        push_static(&mut self.told, managed)
    }

    /// Tells that the carrier went.
    pub fn tell_carrier_went(&mut self, managed: &Managed) -> Result<(), NoMemory>
        requires { FitsManaged managed.now }
        ensures { OnOk result
            (Tells (News.CarrierWent ∷ []) (own Reason.NoCarrier managed.now false Nothing Nothing) (asked_in self.old)
            (asked_in self.new)) }
    {
        self.is_new(News::CarrierWent)?;
        push_event(
            &mut self.told,
            Reason::NoCarrier,
            managed,
            false,
            Held::Nothing,
            Held::Nothing,
        )
    }

    /// Tells that leases are given back. Hooks are told of each that is held.
    pub fn tell_released(&mut self) -> Result<(), NoMemory>
        ensures { OnOk result (Tells (News.Released ∷ []) [] (asked_in self.old) (asked_in self.new)) }
    {
        self.is_new(News::Released)
    }

    /// Tells that nothing is in force on an interface any more.
    pub fn tell_stopped(&mut self, iface: &Iface) -> Result<(), NoMemory>
        requires { FitsManaged iface.now.managed }
        ensures { OnOk result
            (Tells (News.Stopped ∷ []) (told_of News.Stopped iface.now iface.now) (asked_in self.old)
            (asked_in self.new)) }
    {
        self.is_new(News::Stopped)?;
        push_event(
            &mut self.told,
            Reason::Stopped,
            &iface.managed,
            iface.up,
            Held::Nothing,
            Held::Nothing,
        )
    }

    /// Tells what has become of a DHCPv4 lease. `old` is the one that was held before, where the news is of it.
    pub fn tell_lease(
        &mut self,
        iface: &Iface,
        news: News4,
        old: Option<&Lease4>,
    ) -> Result<(), NoMemory>
        requires { FitsManaged iface.now.managed }
        ensures { OnOk result
            (Tells (lease_news news)
            (lease_told news (option_map (λ lease. lease_content lease.now) old.entry) iface.now)
            (asked_in self.old) (asked_in self.new)) }
    {
        self.is_new4(news)?;
        push_event_if(
            &mut self.told,
            reason4(news),
            &iface.managed,
            iface.up,
            leased4(old),
            leased4(held4(&iface.dhcp4)),
        )
    }

    /// Tells what has become of a DHCPv6 lease. `old` is the one that was held before, where the news is of it.
    pub fn tell_lease6(
        &mut self,
        iface: &Iface,
        news: News6,
        old: Option<&Lease6>,
    ) -> Result<(), NoMemory>
        requires { FitsManaged iface.now.managed }
        ensures { OnOk result
            (Tells (lease6_news news)
            (lease6_told news (option_map (λ lease. lease6_content lease.now) old.entry) iface.now)
            (asked_in self.old) (asked_in self.new)) }
    {
        self.is_new6(news)?;
        let lease = held6(&iface.dhcp6);
        push_event_if(
            &mut self.told,
            reason6(news),
            &iface.managed,
            iface.up,
            leased6(old),
            leased6(lease),
        )?;
        push_shares(
            &mut self.told,
            news,
            &iface.managed.conf.dhcp6.shares,
            lease,
        )
    }

    /// Tells what has become of a link-local address.
    pub fn tell_local(&mut self, iface: &Iface, news: LlNews) -> Result<(), NoMemory>
        requires { FitsManaged iface.now.managed }
        ensures { OnOk result
            (Tells (local_news news) (local_told news iface.now) (asked_in self.old) (asked_in self.new)) }
    {
        match news {
            LlNews::Nothing => Ok(()),
            LlNews::Timeout => {
                self.tell_of_local(
                    News::Timeout,
                    iface,
                    Reason::Timeout,
                    Held::Nothing,
                    Held::Nothing,
                )
            }
            LlNews::Gained => {
                let held = local_held(ll_held(&iface.local));
                self.tell_of_local(
                    News::LocalGained,
                    iface,
                    Reason::Ipv4ll,
                    Held::Nothing,
                    held,
                )
            }
            LlNews::Lost(addr) => {
                let held = Held::Address4(local_net(addr));
                self.tell_of_local(
                    News::LocalLost(addr),
                    iface,
                    Reason::Expire,
                    held,
                    Held::Nothing,
                )
            }
        }
    }

    /// Something is new of a link-local address.
    fn tell_of_local(
        &mut self,
        news: News,
        iface: &Iface,
        reason: Reason,
        held_before: Held<'_>,
        held_now: Held<'_>,
    ) -> Result<(), NoMemory>
        requires { FitsManaged iface.now.managed }
        ensures { OnOk result
            (Tells (news ∷ [])
            (own reason iface.now.managed iface.now.up (held_content held_before.entry)
            (held_content held_now.entry))
            (asked_in self.old) (asked_in self.new)) }
    {
        self.is_new(news)?;
        push_event(
            &mut self.told,
            reason,
            &iface.managed,
            iface.up,
            held_before,
            held_now,
        )
    }
}

//! The program `rows`: it runs the sheets of rows in its `data/`, a folder for each of the libraries `rows_..`, and
//! prints a line for each row that differs and one with the counts of each sheet. That they stand in one program spares
//! the gate a build by each of two compilers for every library.
#![tactic(auto)]

use sheets::run_folder;
use std::io;

fn main(rt: HostRuntime) -> io::Result<()> {
    run_folder::<rows_maps::MapRows>(&rt, "maps")?;
    run_folder::<rows_octets::Spelled>(&rt, "octets")?;
    run_folder::<rows_services::Services>(&rt, "services")?;
    run_folder::<rows_objects::Objects>(&rt, "objects")?;
    run_folder::<rows_buses::BusRows>(&rt, "buses")?;
    run_folder::<rows_past::PastRows>(&rt, "past")?;
    run_folder::<rows_site::Sites>(&rt, "site")?;
    run_folder::<rows_site_text::Texts>(&rt, "site_text")?;
    run_folder::<rows_check::Checks>(&rt, "check")?;
    run_folder::<rows_faults::Faults>(&rt, "faults")?;
    run_folder::<rows_captures::CaptureRows>(&rt, "captures")?;
    run_folder::<rows_judge::Judged>(&rt, "judge")?;
    run_folder::<rows_transactions::Transactions>(&rt, "transactions")?;
    run_folder::<rows_state_machines::Machines>(&rt, "state_machines")?;
    run_folder::<rows_endpoint::EndpointRows>(&rt, "endpoint")?;
    run_folder::<rows_network::NetworkRows>(&rt, "network")?;
    run_folder::<rows_json::JsonRows>(&rt, "json")?;
    run_folder::<rows_commands::Commands>(&rt, "commands")?;
    run_folder::<rows_hostile::Hostile>(&rt, "hostile")?;
    rows_hostile::run_texts(&rt)
}

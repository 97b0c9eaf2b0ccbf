//! Tests of rows, records, path leases, transactions, parcels and views.
#![tactic(auto)]

#[cfg(test)]
mod forms;
#[cfg(test)]
mod moderows;
#[cfg(test)]
mod parcel;
#[cfg(test)]
mod paths;
#[cfg(test)]
mod record;
#[cfg(test)]
mod rows;
#[cfg(test)]
mod txn;
#[cfg(test)]
mod view;

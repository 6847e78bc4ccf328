//! What holds of the tables.

ghost use Rattle.names.specs.Names.{LeadsBack};
ghost use Rattle.names.specs.Headers as headers;
ghost use Rattle.names.specs.Tables as spec;

/// In each table a number leads to its name, and a name to its number, so no number and no name stands there twice.
pub fn names_lead_back()
    ensures object_types { LeadsBack spec.object_types }
    ensures properties { LeadsBack spec.properties }
    ensures error_classes { LeadsBack spec.error_classes }
    ensures error_codes { LeadsBack spec.error_codes }
    ensures reject_reasons { LeadsBack spec.reject_reasons }
    ensures abort_reasons { LeadsBack spec.abort_reasons }
    ensures binary_values { LeadsBack spec.binary_values }
{}

/// The same of the numbers of headers and tags.
pub fn header_names_lead_back()
    ensures bvll_functions { LeadsBack headers.bvll_functions }
    ensures bvll_results { LeadsBack headers.bvll_results }
    ensures network_priorities { LeadsBack headers.network_priorities }
    ensures network_messages { LeadsBack headers.network_messages }
    ensures pdu_types { LeadsBack headers.pdu_types }
    ensures confirmed_services { LeadsBack headers.confirmed_services }
    ensures unconfirmed_services { LeadsBack headers.unconfirmed_services }
    ensures max_segments { LeadsBack headers.max_segments }
    ensures max_apdus { LeadsBack headers.max_apdus }
    ensures segmentations { LeadsBack headers.segmentations }
    ensures data_types { LeadsBack headers.data_types }
{}
